//! Tests of reading a mailing: each form of order, blocks, line ends, long texts, and the spans of
//! names.
use super::worlds::{NAMED_THINGS, world_with};
use crate::tests::compare::{assert_count, assert_text_at};
use atl_orders::{MailFault, Mailing, Operands, Span, read_mailing};
use atl_world::{Text, World};
use std::alloc::Global;
use std::process::Abort;
use std::test::Fail;

fn write_orders(alloc: Global, mailing: &Mailing, output: &mut String) -> Result<(), Fail> {
    for entry in mailing.entries.as_slice().iter() {
        let order = format!(in alloc; "{}: {:?} {:?}", entry.line, entry.target, entry.order.verb)?;
        output.push_str(&order)?;
        let operands = format!(in alloc; " {:?};", entry.order.operands)?;
        output.push_str(&operands)?;
    }
    Ok(())
}

fn write_faults(alloc: Global, mailing: &Mailing, output: &mut String) -> Result<(), Fail> {
    for faulty in mailing.faults.as_slice().iter() {
        let fault = format!(in alloc; "{}: {};", faulty.line, faulty.fault)?;
        output.push_str(&fault)?;
    }
    Ok(())
}

fn mailing_text(alloc: Global, mailing: &Mailing) -> Result<String, Fail> {
    let mut output = String::new(alloc);
    write_orders(alloc, mailing, &mut output)?;
    write_faults(alloc, mailing, &mut output)?;
    Ok(output)
}

fn reading_text(alloc: Global, world: &World, text: &[u8]) -> Result<String, Fail> {
    match read_mailing(alloc, world, text) {
        Ok(mailing) => {
            if mailing.text.as_slice() != text {
                return Err(Fail::new("another text"));
            }
            mailing_text(alloc, &mailing)
        }
        Err(fault) => {
            let number = fault.number().unwrap_or(0);
            Ok(format!(in alloc; "refused {number}")?)
        }
    }
}

fn assert_read(
    rt: &impl Abort,
    alloc: Global,
    world: &World,
    text: &[u8],
    wanted: &str,
) -> Result<(), Fail> {
    let actual = reading_text(alloc, world, text)?;
    assert_text_at(rt, wanted, actual.as_str(), wanted);
    Ok(())
}

/// Good orders in any case, quoted and bare, with comments, tabs and surplus words, and how each is
/// read.
static GOOD: [(&str, &str); 24] = [
    ("WORK", "Work Nothing"),
    ("\"work\" now", "Work Nothing"),
    ("TaX", "Tax Nothing"),
    ("LEAVE", "Leave Nothing"),
    (
        "NAME UNIT Big_Bob",
        "Name Name { what: Unit, name: Span { start: 29, end: 36, quoted: false } }",
    ),
    (
        "name faction \"a _b\"",
        "Name Name { what: Faction, name: Span { start: 33, end: 37, quoted: true } }",
    ),
    (
        "NAME BUILDING x;y",
        "Name Name { what: Building, name: Span { start: 33, end: 34, quoted: false } }",
    ),
    (
        "NAME SHIP\tx\"y",
        "Name Name { what: Ship, name: Span { start: 29, end: 30, quoted: false } }",
    ),
    ("GUARD 0", "Guard Flag(false)"),
    ("GUARD 001", "Guard Flag(true)"),
    ("ENTER 3", "Enter Number(3)"),
    ("BOARD 3", "Enter Number(3)"),
    ("PROMOTE NEW 9999", "Promote Unit(Alias(9999))"),
    (
        "PAY 2 100",
        "Pay UnitAndNumber { to: Number(2), number: 100 }",
    ),
    (
        "TRANSFER \"new\" \"4\" 1",
        "Transfer UnitAndNumber { to: Alias(4), number: 1 }",
    ),
    ("RECRUIT 10", "Recruit Number(10)"),
    ("QUIT 1", "Quit Number(1)"),
    (
        "TEACH 7 new 3 \"9\" ; 8",
        "Teach Units(Sequence { items: [Number(7), Alias(3), Number(9)] })",
    ),
    ("BUILD ; boat", "Build Kind(None)"),
    ("MOVE north", "Move Direction(North)"),
    ("MOVE South", "Move Direction(South)"),
    ("SAIL EAST", "Sail Direction(East)"),
    ("SAIL \"west", "Sail Direction(West)"),
    ("FORM 5", "Form Alias(5)"),
];

static NAMING: [(&str, &str); 7] = [
    (
        "GIVE 2 5 LONG_BOW",
        "Give UnitAndGoods { to: Number(2), amount: 5, item: 1 }",
    ),
    (
        "GIVE NEW 3 999999999 \"Long Bow\" x",
        "Give UnitAndGoods { to: Alias(3), amount: 999999999, item: 1 }",
    ),
    ("STUDY Tree_Felling", "Study Skill(1)"),
    ("PRODUCE wood", "Produce Item(0)"),
    ("BUILD Boat", "Build Kind(Some(0))"),
    ("SELL 4 wood", "Sell Goods { amount: 4, item: 0 }"),
    ("buy 2 LONG_BOW x", "Buy Goods { amount: 2, item: 1 }"),
];

/// Faulty lines, from unknown orders to PROMOTE, and the number and name of each line's first
/// fault.
static BAD_NAMES: [(&str, &str); 20] = [
    ("ATTACK 2", "2 UnknownOrder"),
    ("\"\"", "2 UnknownOrder"),
    ("#ATLANTIS 1", "2 UnknownOrder"),
    ("WORKS", "2 UnknownOrder"),
    ("NAME", "5 MissingWord"),
    ("NAME HOUSE x", "4 UnknownThing"),
    ("NAME UNIT", "5 MissingWord"),
    ("NAME UNIT _x", "11 BadName"),
    ("NAME UNIT \" x\"", "11 BadName"),
    ("NAME UNIT \"\"", "11 BadName"),
    (
        "NAME UNIT 12345678901234567890123456789012345678901",
        "11 BadName",
    ),
    ("GUARD", "5 MissingWord"),
    ("GUARD 2", "3 BadNumber"),
    ("ENTER", "5 MissingWord"),
    ("ENTER 0", "3 BadNumber"),
    ("BOARD x", "3 BadNumber"),
    ("PROMOTE", "5 MissingWord"),
    ("PROMOTE 0", "3 BadNumber"),
    ("PROMOTE NEW", "5 MissingWord"),
    ("PROMOTE NEW 10000", "7 BadAlias"),
];

/// Faulty lines, from GIVE to QUIT, and the number and name of each line's first fault.
static BAD_GOODS: [(&str, &str); 23] = [
    ("GIVE", "5 MissingWord"),
    ("GIVE 2", "5 MissingWord"),
    ("GIVE 2 0 wood", "3 BadNumber"),
    ("GIVE 2 1", "5 MissingWord"),
    ("GIVE 2 1 iron", "4 UnknownThing"),
    ("GIVE 2 1 \"long_bow\"", "4 UnknownThing"),
    ("GIVE NEW x 0 iron", "7 BadAlias"),
    ("PAY 2 1000000000", "3 BadNumber"),
    ("PAY 2", "5 MissingWord"),
    ("TRANSFER +2 1", "3 BadNumber"),
    ("TRANSFER 2", "5 MissingWord"),
    ("SELL", "5 MissingWord"),
    ("SELL 0 wood", "3 BadNumber"),
    ("SELL 1", "5 MissingWord"),
    ("SELL 1 iron", "4 UnknownThing"),
    ("BUY", "5 MissingWord"),
    ("BUY 1000000000 iron", "3 BadNumber"),
    ("BUY 1", "5 MissingWord"),
    ("BUY 1 \"long_bow\"", "4 UnknownThing"),
    ("RECRUIT", "5 MissingWord"),
    ("RECRUIT 0", "3 BadNumber"),
    ("QUIT", "5 MissingWord"),
    ("QUIT 1x", "3 BadNumber"),
];

/// Faulty lines, from STUDY to FORM and with bytes that no line may have, and the number and name
/// of each line's first fault.
static BAD_WORK: [(&str, &str); 20] = [
    ("STUDY", "5 MissingWord"),
    ("STUDY wood", "4 UnknownThing"),
    ("PRODUCE", "5 MissingWord"),
    ("PRODUCE sailing", "4 UnknownThing"),
    ("TEACH", "5 MissingWord"),
    ("TEACH 7 x", "3 BadNumber"),
    ("TEACH 7 NEW", "5 MissingWord"),
    ("TEACH 7 NEW 0", "7 BadAlias"),
    ("BUILD hut", "4 UnknownThing"),
    ("MOVE", "5 MissingWord"),
    ("MOVE up", "10 BadDirection"),
    ("SAIL", "5 MissingWord"),
    ("SAIL n", "10 BadDirection"),
    ("UNIT", "5 MissingWord"),
    ("UNIT x", "3 BadNumber"),
    ("END", "9 EndAlone"),
    ("FORM", "5 MissingWord"),
    ("FORM 0", "7 BadAlias"),
    ("WORK ; \r!", "6 BadByte"),
    ("UNIT 2 \"\x7f", "6 BadByte"),
];

/// `front` is put before the text that a row wants.
fn assert_lines(
    rt: &impl Abort,
    alloc: Global,
    world: &World,
    front: &str,
    rows: &[(&str, &str)],
) -> Result<(), Fail> {
    for (line, read) in rows.iter() {
        let text = format!(in alloc; "#ATLANTIS 1\nUNIT 7\n{line}")?;
        let wanted = format!(in alloc; "3: {front}{read};")?;
        assert_read(rt, alloc, world, text.as_bytes(), wanted.as_str())?;
    }
    Ok(())
}

fn assert_order_forms(rt: &impl Abort, alloc: Global, world: &World) -> Result<(), Fail> {
    assert_lines(rt, alloc, world, "Number(7) ", &GOOD)?;
    assert_lines(rt, alloc, world, "Number(7) ", &NAMING)?;
    assert_lines(rt, alloc, world, "", &BAD_NAMES)?;
    assert_lines(rt, alloc, world, "", &BAD_GOODS)?;
    assert_lines(rt, alloc, world, "", &BAD_WORK)
}

/// Texts of whole mailings, with blocks, line ends and headers, and what each is read as.
static TEXTS: [(&str, &str); 10] = [
    (
        "From: a club\r\n\r\n#ATLANTIS 1 secret\r\nUNIT 1 ; the first\r\nATTACK 2\r\nwork\r\n",
        "6: Number(1) Work Nothing;5: 2 UnknownOrder;",
    ),
    (
        "#ATLANTIS 1\nWORK\nUNIT 1\nEND\nFORM 1\nFORM 2\nEND\nFORM 1\nTAX\nEND\nGIVE 2 0 wood\n",
        "5: Number(1) Form Alias(1);2: 1 NoUnit;4: 9 EndAlone;6: 8 NestedForm;8: 7 BadAlias;9: 1 NoUnit;11: 3 BadNumber;",
    ),
    // An alias is known before its FORM; orders in a block are the new unit's, after it the
    // parent's; a block without a unit outside; a UNIT line ends a block; lines after `#END` are
    // ignored.
    (
        "#END\n#atlantis \"0001\"\nFORM 2\nWORK\nEND\nEND\nUNIT 4\nPAY NEW 2 5\nFORM 2\nTAX\nEND\nFORM 3\nUNIT 4\nLEAVE\nUNIT 0\nTAX\n\"#END\" now\nTAX",
        "8: Number(4) Pay UnitAndNumber { to: Alias(2), number: 5 };9: Number(4) Form Alias(2);10: Alias(2) Tax Nothing;12: Number(4) Form Alias(3);14: Number(4) Leave Nothing;3: 1 NoUnit;4: 1 NoUnit;6: 9 EndAlone;15: 3 BadNumber;16: 1 NoUnit;",
    ),
    // A carriage return before a line feed and at the end of the text is dropped, another one is a
    // bad byte.
    (
        "#ATLANTIS 1\r\nUNIT 1\r\n\tWORK\t\r\n\r\nTAX\r\r\nL\rEAVE\n;\nLEAVE\r",
        "3: Number(1) Work Nothing;8: Number(1) Leave Nothing;5: 6 BadByte;6: 6 BadByte;",
    ),
    ("hello", "refused 2"),
    ("", "refused 2"),
    ("#ATLANTIS x", "refused 3"),
    ("#ATLANTIS", "refused 3"),
    ("#ATLANTIS 0", "refused 3"),
    ("#ATLANTIS 10000\n#ATLANTIS 1", "refused 3"),
];

/// A mailing with a byte that is not UTF-8.
const NO_TEXT: &[u8] = b"#ATLANTIS 1\nUNIT 1\n\xc8\nTAX ";

/// Long texts of mailings, some of 65,536 bytes or just more: a front, a piece and how often it
/// comes, an end, and what each is read as.
static LONG: [(&str, &str, usize, &str, &str); 8] = [
    ("#ATLANTIS 1\n", "\n", 65_524, "", ""),
    ("#ATLANTIS 1\n", "\n", 65_525, "", "refused 1"),
    ("#ATLANTIS 1\n", "UNIT 1\n", 20_000, "", "refused 1"),
    ("#ATLANTIS 1\n", "UNIT 1\n", 9_360, "", ""),
    ("#ATLANTIS 1\n", "\"", 65_524, "", "2: 2 UnknownOrder;"),
    ("#ATLANTIS 1\nUNIT ", "9", 5_000, "", "2: 3 BadNumber;"),
    ("#ATLANTIS ", "0", 5_000, "1\nEND", "2: 9 EndAlone;"),
    ("", "x\n", 32_768, "", "refused 2"),
];

fn assert_texts(
    rt: &impl Abort,
    alloc: Global,
    world: &World,
    rows: &[(&str, &str)],
) -> Result<(), Fail> {
    for (text, wanted) in rows.iter() {
        assert_read(rt, alloc, world, text.as_bytes(), wanted)?;
    }
    Ok(())
}

fn repeated(
    alloc: Global,
    front: &str,
    piece: &str,
    times: usize,
    end: &str,
) -> Result<String, Fail> {
    let middle = piece.repeat(alloc, times)?;
    Ok(format!(in alloc; "{front}{middle}{end}")?)
}

fn assert_long_texts(
    rt: &impl Abort,
    alloc: Global,
    world: &World,
    rows: &[(&str, &str, usize, &str, &str)],
) -> Result<(), Fail> {
    for (front, piece, times, end, wanted) in rows.iter() {
        let text = repeated(alloc, front, piece, *times, end)?;
        assert_read(rt, alloc, world, text.as_bytes(), wanted)?;
    }
    Ok(())
}

fn assert_all_texts(rt: &impl Abort, alloc: Global, world: &World) -> Result<(), Fail> {
    assert_texts(rt, alloc, world, &TEXTS)?;
    assert_read(rt, alloc, world, b"#ATLANTIS 1 \xc8", "")?;
    assert_read(
        rt,
        alloc,
        world,
        NO_TEXT,
        "4: Number(1) Tax Nothing;3: 6 BadByte;",
    )?;
    assert_long_texts(rt, alloc, world, &LONG)
}

fn words_of(alloc: Global, mailing: &Mailing) -> Result<String, Fail> {
    let mut words = String::new(alloc);
    for entry in mailing.entries.as_slice().iter() {
        words.push_str(entry.order.verb.keyword())?;
        if let Operands::Name { name, .. } = &entry.order.operands {
            let bytes = mailing.name(alloc, *name)?;
            let name = Text::from_utf8(alloc, bytes.as_slice())?;
            words.push_str(" ")?;
            words.push_str(name.as_str())?;
        }
        words.push_str("|")?;
    }
    Ok(words)
}

/// Mailings, and the keywords and new names of the orders of each, as `words_of` prints them. A
/// name is the text at its span, with `_` as a space where it is bare.
static WORDS: [(&str, &str); 3] = [
    (
        "#ATLANTIS 1\nUNIT 7\nBOARD 1\nFORM 1\nEND\nRECRUIT 3",
        "ENTER|FORM|RECRUIT|",
    ),
    (
        "#ATLANTIS 1\nUNIT 7\nNAME UNIT Big_Bob\nNAME FACTION \"a _b\"",
        "NAME Big Bob|NAME a _b|",
    ),
    (
        "#ATLANTIS 1\nUNIT 7\nguard 1\nenter 4\nleave\ntax\nwork\npromote 12\ngive 2 5 long_bow\npay 12 100\ntransfer NEW 1 3\nrecruit 10\nquit 1\nsell 4 wood\nbuy 2 wood\nstudy sailing\nproduce wood\nteach 4 5\nbuild boat\nmove north\nsail east\nform 1",
        "GUARD|ENTER|LEAVE|TAX|WORK|PROMOTE|GIVE|PAY|TRANSFER|RECRUIT|QUIT|SELL|BUY|STUDY|PRODUCE|TEACH|BUILD|MOVE|SAIL|FORM|",
    ),
];

fn assert_words(rt: &impl Abort, alloc: Global, world: &World) -> Result<(), Fail> {
    for (text, wanted) in WORDS.iter() {
        let mailing = read_mailing(alloc, world, text.as_bytes())?;
        let words = words_of(alloc, &mailing)?;
        assert_text_at(rt, wanted, words.as_str(), wanted);
    }
    Ok(())
}

/// Spans of `#ATLANTIS 1`, a line feed, `_` and a byte that is not UTF-8: start, end, whether
/// quoted, and the name's bytes.
static SPANS: [(usize, usize, bool, &[u8]); 5] = [
    (12, 14, false, b" \xFF"),
    (12, 14, true, b"_\xFF"),
    (10, 900, false, b"1\n \xFF"),
    (13, 12, false, b""),
    (900, 901, true, b""),
];

fn assert_span_name(
    rt: &impl Abort,
    alloc: Global,
    mailing: &Mailing,
    row: &(usize, usize, bool, &[u8]),
) -> Result<(), Fail> {
    let (start, end, quoted, wanted) = *row;
    let span = Span { start, end, quoted };
    let name = mailing.name(alloc, span)?;
    assert!(rt; name.as_slice() == wanted);
    Ok(())
}

fn assert_span_names(rt: &impl Abort, alloc: Global, world: &World) -> Result<(), Fail> {
    let mailing = read_mailing(alloc, world, b"#ATLANTIS 1\n_\xFF")?;
    for row in SPANS.iter() {
        assert_span_name(rt, alloc, &mailing, row)?;
    }
    Ok(())
}

fn faction_of(alloc: Global, world: &World, text: &[u8]) -> Result<usize, Fail> {
    let mailing = read_mailing(alloc, world, text)?;
    Ok(mailing.faction as usize)
}

fn assert_all_readings(rt: &impl Abort, alloc: Global, world: &World) -> Result<(), Fail> {
    assert_order_forms(rt, alloc, world)?;
    assert_all_texts(rt, alloc, world)?;
    assert_words(rt, alloc, world)?;
    assert_span_names(rt, alloc, world)?;
    assert_count(rt, faction_of(alloc, world, b"#ATLANTIS 1")?, 1);
    assert_count(
        rt,
        faction_of(alloc, world, b"#atlantis 09999 x\r\nTAX")?,
        9_999,
    );
    Ok(())
}

/// A mailing is read with the right orders, names and faults, and a text that is no mailing is
/// refused.
#[test]
fn mailings(rt: HostRuntime) -> Result<(), Fail> {
    let world = world_with(rt.alloc(), NAMED_THINGS)?;
    assert_all_readings(&rt, rt.alloc(), &world)?;
    assert!(rt; MailFault::Memory.number().is_none());
    Ok(())
}
