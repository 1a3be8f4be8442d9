//! Tests of sharing the pots of two regions among units, against results worked out by hand
//! (docs/RULES.md, "Shares").
ghost use Rattle.std.specs.Prelude.{IfOk, ⊤};
ghost use Rattle.atl_pots.specs.Pots.{AreWants};
ghost use Rattle.atl_game_tests.specs.Places.{pot_in};

use super::compare::assert_row_text;
use super::row_text::write_pair;
use atl_campaign::{Campaign, Holding, LAST_UNIT, Unit, founded};
use atl_market::{Pots, pot_shares};
use atl_tables::read_world;
use atl_test_worlds::TWO_REGIONS;
use atl_world::{Numbered, Text, World};
use std::alloc::{AllocError, Global};
use std::process::Abort;
use std::test::Fail;

/// The pots of regions 1 and 2; a pot is how much there is to share. All other regions have none.
#[derive(Drop)]
struct TwoPots {
    first: u16,
    second: u16,
}

impl Pots for TwoPots {
    ghost pot_of = { λ places. pot_in places.first places.second };

    ghost ready = { λ _. ⊤ };

    fn pot(&self, region: u32) -> u64 {
        match region {
            1 => u64::from(self.first),
            2 => u64::from(self.second),
            _ => 0,
        }
    }
}

/// A unit's region, and how much it wants of that region's pot; None if it wants none.
type Taker = (u32, Option<u16>);

/// Cases: the takers in the order of their numbers from 1, the pots of regions 1 and 2, and each
/// unit's number with the share that it has to get.
static SHARED: [(&[Taker], (u16, u16), &str); 8] = [
    (&[], (100, 100), ""),
    (
        &[(1, Some(50)), (1, Some(60)), (1, Some(70))],
        (100, 0),
        "1 27;2 34;3 39;",
    ),
    // Units of the two regions alternate; each shares its own region's pot.
    (
        &[
            (1, Some(50)),
            (2, Some(110)),
            (1, Some(60)),
            (2, Some(70)),
            (1, Some(70)),
        ],
        (100, 100),
        "1 27;2 61;3 34;4 39;5 39;",
    ),
    // A unit without a want gets no share, not even 0.
    (
        &[(1, Some(50)), (1, None), (1, Some(60)), (1, Some(70))],
        (100, 0),
        "1 27;3 34;4 39;",
    ),
    // A unit that wants 0 gets a share of 0.
    (
        &[(1, Some(3)), (1, Some(0)), (1, Some(4))],
        (7, 0),
        "1 3;2 0;3 4;",
    ),
    (&[(1, Some(3)), (1, Some(4))], (0, 9), "1 0;2 0;"),
    // What is left of one region's pot doesn't go to the other region.
    (&[(1, Some(3)), (2, Some(4))], (9, 2), "1 3;2 2;"),
    // A unit in region 9, which the world doesn't have, gets no share.
    (&[(9, Some(5)), (1, Some(5))], (5, 5), "2 5;"),
];

fn one_man(alloc: Global) -> Result<Holding, Fail> {
    let name = Text::from_str(alloc, "A man")?;
    Ok(Holding::new(name, 1, 0, Numbered::new(alloc), Numbered::new(alloc)))
}

fn unit_comes(alloc: Global, campaign: &mut Campaign, region: u32) -> Result<(), Fail> {
    let holding = one_man(alloc)?;
    if campaign.next_unit() > LAST_UNIT || campaign.unit(campaign.next_unit()).is_some() {
        return Err(Fail::new("a free number"));
    }
    campaign.begin_unit(Unit {
        faction: 1,
        region,
        structure: 0,
        holding,
    })?;
    Ok(())
}

fn campaign_of(alloc: Global, world: &World, takers: &[Taker]) -> Result<Campaign, Fail> {
    let mut campaign = founded(alloc, world, b"gm")?;
    for (region, _) in takers {
        unit_comes(alloc, &mut campaign, *region)?;
    }
    Ok(campaign)
}

fn wants_of(alloc: Global, takers: &[Taker]) -> Result<Numbered<u32>, Fail>
    ensures { IfOk result (λ wants. AreWants wants) }
{
    let mut wants = Numbered::new(alloc);
    let mut number: u32 = 0;
    for (_, want) in takers {
        number = number.wrapping_add(1);
        if let Some(want) = want {
            wants.insert(number, u32::from(*want))?;
        }
    }
    Ok(wants)
}

fn shares_text(alloc: Global, given: &Numbered<u32>) -> Result<String, AllocError> {
    let mut output = String::new(alloc);
    for (number, share) in given.iter() {
        write_pair(alloc, u64::from(number), u64::from(*share), &mut output)?;
    }
    Ok(output)
}

fn shares(
    alloc: Global,
    world: &World,
    takers: &[Taker],
    pots: (u16, u16),
) -> Result<String, Fail> {
    let campaign = campaign_of(alloc, world, takers)?;
    let wants = wants_of(alloc, takers)?;
    let places = TwoPots {
        first: pots.0,
        second: pots.1,
    };
    let given = pot_shares(alloc, &campaign, &places, &wants)?;
    Ok(shares_text(alloc, &given)?)
}

fn assert_pot_cases(rt: &impl Abort, alloc: Global, world: &World) -> Result<(), Fail> {
    for (row, (takers, pots, wanted)) in SHARED.iter().enumerate() {
        let output = shares(alloc, world, takers, *pots)?;
        assert_row_text(rt, row, output.as_str(), wanted);
    }
    Ok(())
}

#[test]
fn pots_are_shared(rt: HostRuntime) -> Result<(), Fail> {
    let world = read_world(rt.alloc(), TWO_REGIONS)?;
    assert_pot_cases(&rt, rt.alloc(), &world)
}
