//! Tests of `Campaign::parts`: the rows that a campaign gives to each table.
use super::making::{LODGE, joined_by};
use super::steps::{FactionChange, Step, StructureChange, UnitChange, make_steps};
use crate::tests::compare::assert_shown;
use atl_campaign::parts::Parts;
use atl_test_worlds::ISLE;
use std::alloc::Global;
use std::process::Abort;
use std::test::Fail;

/// Steps that begin a lodge, give its owner, unit 1 of the faction Avalon, 12 wood, 60 days of
/// sailing and the guard flag, and store a mailing and a report of Avalon.
static SETTLING: [Step; 7] = [
    Step::Begins(LODGE, 1),
    Step::Structure(1, StructureChange::Owner(1)),
    Step::Unit(1, UnitChange::LentItem(0, 12)),
    Step::Unit(1, UnitChange::Days(3, 60)),
    Step::Unit(1, UnitChange::Guard(true)),
    Step::Faction(1, FactionChange::Mail("#ATLANTIS 1")),
    Step::Faction(1, FactionChange::Report("A report.\n")),
];

fn rows(alloc: Global) -> Result<Parts, Fail> {
    let mut campaign = joined_by(alloc, ISLE)?;
    make_steps(alloc, &mut campaign, &SETTLING)?;
    Ok(campaign.parts()?)
}

/// The wanted campaign row; the pass text is `gm`.
const HEAD: &str =
    "[StoredCampaignRow { id: 1, format: 2, month: 0, next_faction: 2, next_unit: 2, next_structure: 2, \
    pass: Sequence { items: [103, 109] } }]";

/// The wanted row of Avalon; both names are `Avalon`, the pass text is `pw`.
const FACTIONS: &str =
    "[StoredFaction { number: 1, joined_as: Sequence { items: [65, 118, 97, 108, 111, 110] }, \
    name: Sequence { items: [65, 118, 97, 108, 111, 110] }, pass: Sequence { items: [112, 119] }, gone: 0 }]";

const REGIONS: &str = "[StoredRegion { number: 1, peasants: 1000, money: 500 }, \
    StoredRegion { number: 2, peasants: 0, money: 0 }, \
    StoredRegion { number: 3, peasants: 200, money: 100 }, \
    StoredRegion { number: 4, peasants: 100, money: 50 }]";

/// The wanted row of the unit; the name is `Unit 1`.
const UNITS: &str =
    "[StoredUnit { number: 1, faction: 1, name: Sequence { items: [85, 110, 105, 116, 32, 49] }, \
    region: 3, structure: 0, men: 1, money: 1000, guard: 1 }]";

const HAS: &str = "[StoredHas { unit: 1, sort: 0, thing: 0, amount: 12 }, \
    StoredHas { unit: 1, sort: 1, thing: 3, amount: 60 }]";

/// The wanted row of the lodge; the name is `A structure`.
const STRUCTURES: &str = "[StoredStructure { number: 1, kind: 1, \
    name: Sequence { items: [65, 32, 115, 116, 114, 117, 99, 116, 117, 114, 101] }, region: 3, done: 2, owner: 1 }]";

/// The wanted row of the mailing; the text is `#ATLANTIS 1`.
const MAIL: &str =
    "[StoredMail { faction: 1, text: Sequence { items: [35, 65, 84, 76, 65, 78, 84, 73, 83, 32, 49] } }]";

const REPORTS: &str = "[StoredReport { faction: 1, text: Text { string: \"A report.\\n\" } }]";

/// The wanted rows of the books: what the regions held at the founding, and what joining brought.
const BOOKS: &str = "[StoredBooks { entry: 1, thing: 0, amount: 650 }, \
    StoredBooks { entry: 1, thing: 1, amount: 1300 }, \
    StoredBooks { entry: 2, thing: 0, amount: 1000 }, \
    StoredBooks { entry: 2, thing: 1, amount: 1 }]";

fn assert_people_rows(rt: &impl Abort, alloc: Global, parts: &Parts) -> Result<(), Fail> {
    assert_shown(rt, alloc, "campaign", parts.campaign.as_slice(), HEAD)?;
    assert_shown(rt, alloc, "factions", parts.factions.as_slice(), FACTIONS)?;
    assert_shown(rt, alloc, "units", parts.units.as_slice(), UNITS)?;
    assert_shown(rt, alloc, "has", parts.has.as_slice(), HAS)?;
    assert_shown(
        rt,
        alloc,
        "structures",
        parts.structures.as_slice(),
        STRUCTURES,
    )
}

fn assert_other_rows(rt: &impl Abort, alloc: Global, parts: &Parts) -> Result<(), Fail> {
    assert_shown(rt, alloc, "regions", parts.regions.as_slice(), REGIONS)?;
    assert_shown(rt, alloc, "mail", parts.mail.as_slice(), MAIL)?;
    assert_shown(rt, alloc, "reports", parts.reports.as_slice(), REPORTS)?;
    assert_shown(rt, alloc, "books", parts.books.as_slice(), BOOKS)?;
    assert_shown(rt, alloc, "markets", parts.markets.as_slice(), "[]")
}

#[test]
fn rows_of_a_campaign(rt: HostRuntime) -> Result<(), Fail> {
    let parts = rows(rt.alloc())?;
    assert_people_rows(&rt, rt.alloc(), &parts)?;
    assert_other_rows(&rt, rt.alloc(), &parts)
}
