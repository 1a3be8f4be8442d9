//! Tests of the words of the dice (docs/FORMATS.md, "Dice"), against words that were worked out
//! independently from PCG's published generator of 32-bit words.
use atl_http::Dice;
use std::alloc::{AllocError, Global};
use std::process::Abort;

/// The first words of seed 42 and stream 54, which the demo that is published with PCG prints.
static DEMO: [u32; 6] = [
    0xa15c_02b7,
    0x7b47_f409,
    0xba1d_3330,
    0x83d2_f293,
    0xbfa4_784b,
    0xcbed_606e,
];

/// A seed, a faction's number, and the word for its join.
static JOINING_WORDS: [(u64, u32, u32); 6] = [
    (1, 1, 2_662_848_630),
    (1, 2, 1_686_128_983),
    (1, 3, 2_024_058_790),
    (7, 1, 3_640_060_896),
    (7, 2, 2_365_036_800),
    (u64::MAX, u32::MAX, 726_911_579),
];

fn assert_words(
    rt: &impl Abort,
    alloc: Global,
    seed: u64,
    month: u32,
    expected: &[u32],
) -> Result<(), AllocError> {
    let words = Dice { seed }.month_words(alloc, month, expected.len())?;
    assert!(rt; words.as_slice() == expected, "{seed} {month}");
    Ok(())
}

fn assert_join_words(rt: &impl Abort, rows: &[(u64, u32, u32)]) {
    for (seed, faction, word) in rows.iter() {
        let dice = Dice { seed: *seed };
        assert!(rt; dice.join_word(*faction) == *word, "{seed} {faction}");
    }
}

#[test]
fn words_of_months(rt: HostRuntime) -> Result<(), AllocError> {
    let alloc = rt.alloc();
    assert_words(&rt, alloc, 42, 54, &DEMO)?;
    assert_words(
        &rt,
        alloc,
        7,
        1,
        &[2_215_483_850, 315_054_046, 1_954_657_312],
    )?;
    assert_words(
        &rt,
        alloc,
        7,
        2,
        &[2_544_825_812, 805_222_483, 2_583_008_270],
    )?;
    assert_words(&rt, alloc, u64::MAX, 9_999, &[617_612_273])?;
    assert_words(&rt, alloc, 7, 1, &[])
}

#[test]
fn words_of_factions(rt: HostRuntime) {
    assert_join_words(&rt, &JOINING_WORDS);
}

/// A faction's word is the first one of the stream with the faction's number plus 10,000.
#[test]
fn streams_of_factions(rt: HostRuntime) -> Result<(), AllocError> {
    let alloc = rt.alloc();
    assert_words(&rt, alloc, 7, 10_001, &[Dice { seed: 7 }.join_word(1)])
}
