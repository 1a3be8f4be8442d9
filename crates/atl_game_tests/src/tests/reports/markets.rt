//! Tests of the lines on markets in a report, for scenes, which say what a campaign has. The world
//! is the island with two markets in region 4; its text names the cart before the wood.
use super::scenes::{Built, LODGE, MAN, NOBODY, Scene, SceneUnit, campaign_of};
use crate::tests::compare::assert_text;
use atl_report::{report_text, view};
use atl_tables::read_world;
use atl_test_worlds::ISLE;
use atl_world::World;
use std::alloc::Global;
use std::process::Abort;
use std::test::Fail;

/// The text of two markets, to append to the text of the island, whose last region is region 4.
const MARKETS: &str = r#"[[region.market]]
item = "cart"
price = 500
pays = 400
limit = 12
restock = 1
[[region.market]]
item = "wood"
price = 7
pays = 5
limit = 30
restock = 20
"#;

/// A unit of one man in region 4, which has the markets.
const MERCHANT: SceneUnit = SceneUnit { region: 4, ..MAN };

#[derive(Clone, Copy)]
struct Case {
    scene: Scene,
    wanted: &'static str,
}

/// Scenes of the island with markets, and the wanted report on each.
static CASES: [Case; 4] = [
    // The markets have nothing in stock.
    Case {
        scene: Scene {
            people: &[MERCHANT],
            ..NOBODY
        },
        wanted: "Atlantis report, month 0, faction 1 \"Avalon\".
Orders:
None.
Region 4 \"Wood\", forest: 100 peasants, 50 money.
Exits: south 3.
Market wood: 0 in stock at 7, 30 wanted at 5.
Market cart: 0 in stock at 500, 12 wanted at 400.
* Unit 1 \"Unit 1\": 1 men, 0 money.
",
    },
    // One market has some in stock, and the other is full.
    Case {
        scene: Scene {
            people: &[MERCHANT],
            stocks: &[(4, 1, 12), (4, 0, 25)],
            ..NOBODY
        },
        wanted: "Atlantis report, month 0, faction 1 \"Avalon\".
Orders:
None.
Region 4 \"Wood\", forest: 100 peasants, 50 money.
Exits: south 3.
Market wood: 25 in stock at 7, 5 wanted at 5.
Market cart: 12 in stock at 500, 0 wanted at 400.
* Unit 1 \"Unit 1\": 1 men, 0 money.
",
    },
    // The lines on markets come before those on structures.
    Case {
        scene: Scene {
            people: &[SceneUnit {
                structure: 1,
                ..MERCHANT
            }],
            built: &[Built {
                kind: LODGE,
                name: "Fair",
                region: 4,
                done: 20,
                owner: 1,
            }],
            stocks: &[(4, 0, 1)],
            ..NOBODY
        },
        wanted: "Atlantis report, month 0, faction 1 \"Avalon\".
Orders:
None.
Region 4 \"Wood\", forest: 100 peasants, 50 money.
Exits: south 3.
Market wood: 1 in stock at 7, 29 wanted at 5.
Market cart: 0 in stock at 500, 12 wanted at 400.
Structure 1 \"Fair\", lodge, 20 of 20, owner 1.
* Unit 1 \"Unit 1\": 1 men, 0 money, in 1.
",
    },
    // The markets of a region that isn't seen have no line, and a region without markets has none.
    Case {
        scene: Scene {
            people: &[MAN],
            stocks: &[(4, 0, 30)],
            ..NOBODY
        },
        wanted: "Atlantis report, month 0, faction 1 \"Avalon\".
Orders:
None.
Region 1 \"Shore\", plain: 1000 peasants, 500 money.
Exits: east 2.
* Unit 1 \"Unit 1\": 1 men, 0 money.
",
    },
];

fn assert_case(rt: &impl Abort, alloc: Global, world: &World, case: &Case) -> Result<(), Fail> {
    let campaign = campaign_of(alloc, world, &case.scene)?;
    let seen = view(alloc, world, &campaign, 1)?;
    let text = report_text(alloc, world, &seen, &[], &[])?;
    assert_text(rt, text.as_str(), case.wanted);
    Ok(())
}

fn assert_cases(rt: &impl Abort, alloc: Global, world: &World) -> Result<(), Fail> {
    for case in CASES.iter() {
        assert_case(rt, alloc, world, case)?;
    }
    Ok(())
}

/// A report has a line for each market of a region that is seen, by item number, before the
/// structures.
#[test]
fn markets(rt: HostRuntime) -> Result<(), Fail> {
    let text = format!(in rt.alloc(); "{ISLE}{MARKETS}")?;
    let world = read_world(rt.alloc(), text.as_str())?;
    assert_cases(&rt, rt.alloc(), &world)
}
