//! Tests of the text of the books. Each scene says what a campaign has; the wanted texts are worked
//! out by hand. Faction 1 is Avalon.
ghost use Rattle.atl_campaign.specs.Good.{IsGood};

use super::scenes::{CART, MAN, NOBODY, Scene, SceneUnit, WOOD, campaign_of};
use crate::tests::compare::assert_text;
use atl_campaign::Campaign;
use atl_report::books_text;
use atl_tables::read_world;
use atl_test_worlds::{ISLE, SMALL_WORLD};
use atl_world::World;
use std::alloc::Global;
use std::process::Abort;
use std::test::Fail;

/// The scene after Avalon's first month: its man earned 12 by work and paid 10 for upkeep, and the
/// region's income was 1,000.
const FIRST_MONTH: Scene = Scene {
    people: &[SceneUnit { money: 1002, ..MAN }],
    regions: &[(1, 1000, 1500)],
    books: &[
        (1, 0, 500),
        (2, 0, 1000),
        (3, 0, 1000),
        (4, 0, 12),
        (7, 0, -10),
        (1, 1, 1000),
        (2, 1, 1),
    ],
    ..NOBODY
};

const OF_FIRST_MONTH: &str = "money founding 500
money joining 1000
money income 1000
money wages 12
money upkeep -10
money total 2502
people founding 1000
people joining 1
people total 1001
";

/// The scene after a month in which Avalon quit: its 1,000 money is lost, its man left, and the
/// region's income was 1,000.
const QUITTING: Scene = Scene {
    regions: &[(1, 1000, 1500)],
    books: &[
        (1, 0, 500),
        (2, 0, 1000),
        (3, 0, 1000),
        (8, 0, -1000),
        (1, 1, 1000),
        (2, 1, 1),
        (11, 1, -1),
    ],
    ..NOBODY
};

const OF_QUITTING: &str = "money founding 500
money joining 1000
money income 1000
money lost -1000
money total 1500
people founding 1000
people joining 1
people left -1
people total 1000
";

/// A scene whose books have an amount of money under every entry, half of them negative.
const EVERY_ENTRY: Scene = Scene {
    regions: &[(1, 1000, 489)],
    books: &[
        (16, 0, -1),
        (15, 0, 14),
        (14, 0, -13),
        (13, 0, -12),
        (12, 0, 11),
        (11, 0, -10),
        (10, 0, 9),
        (9, 0, -8),
        (8, 0, -199999999999999),
        (7, 0, -6),
        (6, 0, 5),
        (5, 0, -4),
        (4, 0, 3),
        (3, 0, 199999999999999),
        (2, 0, 1),
        (1, 0, 500),
        (1, 1, 1000),
    ],
    ..NOBODY
};

const OF_EVERY_ENTRY: &str = "money founding 500
money joining 1
money income 199999999999999
money wages 3
money recruiting -4
money study 5
money upkeep -6
money lost -199999999999999
money births -8
money starved 9
money left -10
money made 11
money used -12
money bought -13
money sold 14
money stocked -1
money total 489
people founding 1000
people total 1000
";

/// A scene whose units made 20 wood, and 2 carts out of 10 of the 12 wood that they had joined
/// with.
const PRODUCTION: Scene = Scene {
    people: &[
        SceneUnit {
            region: 3,
            men: 15,
            has: &[(WOOD, 7)],
            ..MAN
        },
        SceneUnit {
            region: 3,
            men: 25,
            has: &[(WOOD, 13)],
            ..MAN
        },
        SceneUnit {
            region: 3,
            men: 4,
            has: &[(WOOD, 2), (CART, 2)],
            ..MAN
        },
    ],
    books: &[
        (1, 0, 650),
        (1, 1, 1300),
        (2, 1, 44),
        (2, 2, 12),
        (12, 2, 20),
        (13, 2, -10),
        (12, 3, 2),
    ],
    ..NOBODY
};

const OF_PRODUCTION: &str = "money founding 650
money total 650
people founding 1300
people joining 44
people total 1344
item \"wood\" joining 12
item \"wood\" made 20
item \"wood\" used -10
item \"wood\" total 22
item \"cart\" made 2
item \"cart\" total 2
";

/// The text of the books of the island without units, where only the founding is booked.
const OF_THE_ISLE: &str = "money founding 650
money total 650
people founding 1300
people total 1300
item \"wood\" total 0
item \"cart\" total 0
";

/// Scenes of the small world, and the wanted text of the books of each.
static OF_SMALL: [(Scene, &str); 3] = [
    (FIRST_MONTH, OF_FIRST_MONTH),
    (QUITTING, OF_QUITTING),
    (EVERY_ENTRY, OF_EVERY_ENTRY),
];

/// Scenes of the island, and the wanted text of the books of each.
static OF_ISLE: [(Scene, &str); 2] = [(PRODUCTION, OF_PRODUCTION), (NOBODY, OF_THE_ISLE)];

fn assert_text_of(
    rt: &impl Abort,
    alloc: Global,
    world: &World,
    campaign: &Campaign,
    wanted: &str,
) -> Result<(), Fail>
    requires { IsGood world.now campaign.now.value }
{
    let text = books_text(alloc, world, campaign)?;
    assert_text(rt, text.as_str(), wanted);
    Ok(())
}

fn assert_case(
    rt: &impl Abort,
    alloc: Global,
    world: &World,
    scene: &Scene,
    wanted: &str,
) -> Result<(), Fail> {
    let campaign = campaign_of(alloc, world, scene)?;
    assert_text_of(rt, alloc, world, &campaign, wanted)
}

fn assert_cases(
    rt: &impl Abort,
    alloc: Global,
    world: &World,
    cases: &[(Scene, &str)],
) -> Result<(), Fail> {
    for (scene, wanted) in cases {
        assert_case(rt, alloc, world, scene, wanted)?;
    }
    Ok(())
}

#[test]
fn books_of_money_and_people(rt: HostRuntime) -> Result<(), Fail> {
    let world = read_world(rt.alloc(), SMALL_WORLD)?;
    assert_cases(&rt, rt.alloc(), &world, &OF_SMALL)
}

/// The text of the books lists the amounts of each item that aren't 0, by entry, and its total,
/// even if that is 0.
#[test]
fn books_of_items(rt: HostRuntime) -> Result<(), Fail> {
    let world = read_world(rt.alloc(), ISLE)?;
    assert_cases(&rt, rt.alloc(), &world, &OF_ISLE)
}
