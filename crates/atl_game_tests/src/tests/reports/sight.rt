//! Tests of which units and structures a report shows, by whole reports worked out by hand
//! (docs/RULES.md, "Sight"). The world is the island; each scene says what a campaign has.
use super::scenes::{
    BOAT, Built, CART, LODGE, LUMBERJACK, MAN, NOBODY, OBSERVATION, SAILING, STEALTH, Scene,
    SceneUnit, WOOD, campaign_of,
};
use crate::tests::compare::assert_text;
use atl_campaign::{Campaign, Event, EventVerb, Outcome};
use atl_orders::{FaultyLine, LineFault, Verb};
use atl_report::{report_text, view};
use atl_tables::read_world;
use atl_test_worlds::ISLE;
use atl_world::World;
use std::alloc::Global;
use std::process::Abort;
use std::test::Fail;

/// A scene, the units there that lose their men, faulty lines and events, a faction, and the report
/// that the faction has to get.
#[derive(Clone, Copy)]
struct Case {
    scene: Scene,
    /// The units that lose all their men before the report is made.
    empty: &'static [u32],
    faction: u32,
    faults: &'static [FaultyLine],
    events: &'static [Event],
    wanted: &'static str,
}

const BLANK: Case = Case {
    scene: NOBODY,
    empty: &[],
    faction: 1,
    faults: &[],
    events: &[],
    wanted: "",
};

/// A unit of faction 1 in region 4: one man with level 1 of observation (30 days).
const WATCHER: SceneUnit = SceneUnit {
    region: 4,
    has: &[(OBSERVATION, 30)],
    ..MAN
};

/// A unit of faction 1 in region 4: one man with level 2 of observation (90 days).
const KEEN_WATCHER: SceneUnit = SceneUnit {
    region: 4,
    has: &[(OBSERVATION, 90)],
    ..MAN
};

/// A unit of faction 2 in region 4: one man with level 2 of stealth (90 days).
const HIDER: SceneUnit = SceneUnit {
    faction: 2,
    region: 4,
    has: &[(STEALTH, 90)],
    ..MAN
};

static HIDDEN: [Case; 9] = [
    // A unit with stealth 2 is hidden from observation 1.
    Case {
        scene: Scene {
            people: &[WATCHER, HIDER],
            ..NOBODY
        },
        wanted: "Atlantis report, month 0, faction 1 \"Avalon\".
Orders:
None.
Region 4 \"Wood\", forest: 100 peasants, 50 money.
Exits: south 3.
* Unit 1 \"Unit 1\": 1 men, 0 money, observation 1 (30).
",
        ..BLANK
    },
    // Observation 2 sees a unit with stealth 2.
    Case {
        scene: Scene {
            people: &[KEEN_WATCHER, HIDER],
            ..NOBODY
        },
        wanted: "Atlantis report, month 0, faction 1 \"Avalon\".
Orders:
None.
Region 4 \"Wood\", forest: 100 peasants, 50 money.
Exits: south 3.
* Unit 1 \"Unit 1\": 1 men, 0 money, observation 2 (90).
- Unit 2 \"Unit 2\" of faction 2 \"Bree\": 1 men.
",
        ..BLANK
    },
    // The highest observation of the faction's units in the region counts, whichever unit has it.
    Case {
        scene: Scene {
            people: &[WATCHER, HIDER, KEEN_WATCHER, WATCHER],
            ..NOBODY
        },
        wanted: "Atlantis report, month 0, faction 1 \"Avalon\".
Orders:
None.
Region 4 \"Wood\", forest: 100 peasants, 50 money.
Exits: south 3.
* Unit 1 \"Unit 1\": 1 men, 0 money, observation 1 (30).
- Unit 2 \"Unit 2\" of faction 2 \"Bree\": 1 men.
* Unit 3 \"Unit 3\": 1 men, 0 money, observation 2 (90).
* Unit 4 \"Unit 4\": 1 men, 0 money, observation 1 (30).
",
        ..BLANK
    },
    // The observation of a unit in another region doesn't count.
    Case {
        scene: Scene {
            people: &[
                WATCHER,
                HIDER,
                SceneUnit {
                    region: 1,
                    ..KEEN_WATCHER
                },
            ],
            ..NOBODY
        },
        wanted: "Atlantis report, month 0, faction 1 \"Avalon\".
Orders:
None.
Region 1 \"Shore\", plain: 1000 peasants, 500 money.
Exits: east 2.
* Unit 3 \"Unit 3\": 1 men, 0 money, observation 2 (90).
Region 4 \"Wood\", forest: 100 peasants, 50 money.
Exits: south 3.
* Unit 1 \"Unit 1\": 1 men, 0 money, observation 1 (30).
",
        ..BLANK
    },
    // The observation of another faction's unit doesn't count. A unit without stealth is always
    // seen.
    Case {
        scene: Scene {
            people: &[
                WATCHER,
                HIDER,
                SceneUnit {
                    faction: 2,
                    ..KEEN_WATCHER
                },
            ],
            ..NOBODY
        },
        wanted: "Atlantis report, month 0, faction 1 \"Avalon\".
Orders:
None.
Region 4 \"Wood\", forest: 100 peasants, 50 money.
Exits: south 3.
* Unit 1 \"Unit 1\": 1 men, 0 money, observation 1 (30).
- Unit 3 \"Unit 3\" of faction 2 \"Bree\": 1 men.
",
        ..BLANK
    },
    // A unit that guards is seen by all.
    Case {
        scene: Scene {
            people: &[WATCHER, SceneUnit { guard: 1, ..HIDER }],
            ..NOBODY
        },
        wanted: "Atlantis report, month 0, faction 1 \"Avalon\".
Orders:
None.
Region 4 \"Wood\", forest: 100 peasants, 50 money.
Exits: south 3.
* Unit 1 \"Unit 1\": 1 men, 0 money, observation 1 (30).
- Unit 2 \"Unit 2\" of faction 2 \"Bree\": 1 men, guard.
",
        ..BLANK
    },
    // A structure is seen always, and its owner's number only if the owner is seen.
    Case {
        scene: Scene {
            people: &[
                WATCHER,
                SceneUnit {
                    structure: 1,
                    ..HIDER
                },
                SceneUnit {
                    structure: 2,
                    ..KEEN_HIDER
                },
                SceneUnit {
                    faction: 2,
                    region: 4,
                    structure: 2,
                    money: 99,
                    ..MAN
                },
            ],
            built: &[
                Built {
                    kind: LODGE,
                    name: "The Oak",
                    region: 4,
                    done: 5,
                    owner: 2,
                },
                Built {
                    kind: BOAT,
                    name: "Ark",
                    region: 4,
                    done: 10,
                    owner: 4,
                },
            ],
            ..NOBODY
        },
        wanted: "Atlantis report, month 0, faction 1 \"Avalon\".
Orders:
None.
Region 4 \"Wood\", forest: 100 peasants, 50 money.
Exits: south 3.
Structure 1 \"The Oak\", lodge, 5 of 20, owner 0.
Structure 2 \"Ark\", boat, 10 of 10, owner 4.
* Unit 1 \"Unit 1\": 1 men, 0 money, observation 1 (30).
- Unit 4 \"Unit 4\" of faction 2 \"Bree\": 1 men, in 2.
",
        ..BLANK
    },
    // A faction's own units are seen, whatever their stealth.
    Case {
        scene: Scene {
            people: &[WATCHER, HIDER],
            ..NOBODY
        },
        faction: 2,
        wanted: "Atlantis report, month 0, faction 2 \"Bree\".
Orders:
None.
Region 4 \"Wood\", forest: 100 peasants, 50 money.
Exits: south 3.
- Unit 1 \"Unit 1\" of faction 1 \"Avalon\": 1 men.
* Unit 2 \"Unit 2\": 1 men, 0 money, stealth 2 (90).
",
        ..BLANK
    },
    // A faction without units sees nothing.
    Case {
        scene: Scene {
            people: &[WATCHER, KEEN_WATCHER],
            ..NOBODY
        },
        faction: 2,
        wanted: "Atlantis report, month 0, faction 2 \"Bree\".
Orders:
None.
",
        ..BLANK
    },
];

/// A unit of faction 2 in region 4: one man with level 5 of stealth (450 days).
const KEEN_HIDER: SceneUnit = SceneUnit {
    faction: 2,
    region: 4,
    has: &[(STEALTH, 450)],
    ..MAN
};

/// Scenes in which units have lost all men, as happens only within a month, and the wanted reports.
static EMPTY: [Case; 3] = [
    // A unit without men has no stealth, so that another faction sees it, and it doesn't guard.
    Case {
        scene: Scene {
            people: &[
                WATCHER,
                SceneUnit {
                    region: 4,
                    men: 2,
                    money: 5,
                    guard: 1,
                    has: &[(SAILING, 60), (WOOD, 4)],
                    ..MAN
                },
                KEEN_HIDER,
            ],
            ..NOBODY
        },
        empty: &[2, 3],
        wanted: "Atlantis report, month 0, faction 1 \"Avalon\".
Orders:
None.
Region 4 \"Wood\", forest: 100 peasants, 50 money.
Exits: south 3.
* Unit 1 \"Unit 1\": 1 men, 0 money, observation 1 (30).
* Unit 2 \"Unit 2\": 0 men, 5 money, 4 wood, sailing 0 (60).
- Unit 3 \"Unit 3\" of faction 2 \"Bree\": 0 men.
",
        ..BLANK
    },
    // A unit without men has no observation.
    Case {
        scene: Scene {
            people: &[WATCHER, HIDER, KEEN_WATCHER],
            ..NOBODY
        },
        empty: &[3],
        wanted: "Atlantis report, month 0, faction 1 \"Avalon\".
Orders:
None.
Region 4 \"Wood\", forest: 100 peasants, 50 money.
Exits: south 3.
* Unit 1 \"Unit 1\": 1 men, 0 money, observation 1 (30).
* Unit 3 \"Unit 3\": 0 men, 0 money, observation 0 (90).
",
        ..BLANK
    },
    // A region isn't seen if all the faction's units in it are without men.
    Case {
        scene: Scene {
            people: &[
                WATCHER,
                SceneUnit {
                    region: 3,
                    ..WATCHER
                },
            ],
            ..NOBODY
        },
        empty: &[1],
        wanted: "Atlantis report, month 0, faction 1 \"Avalon\".
Orders:
None.
Region 3 \"Far\", forest: 200 peasants, 100 money.
Exits: north 4, west 2.
* Unit 2 \"Unit 2\": 1 men, 0 money, observation 1 (30).
",
        ..BLANK
    },
];

const FAULTS: [FaultyLine; 1] = [FaultyLine {
    line: 5,
    fault: LineFault::UnknownOrder,
}];

const EVENTS: [Event; 4] = [
    Event {
        faction: 1,
        unit: 1,
        line: 6,
        verb: EventVerb::Order(Verb::Work),
        outcome: Outcome::Done(12),
    },
    Event {
        faction: 2,
        unit: 2,
        line: 4,
        verb: EventVerb::Order(Verb::Tax),
        outcome: Outcome::Fault(5),
    },
    Event {
        faction: 1,
        unit: 4,
        line: 9,
        verb: EventVerb::Order(Verb::Sail),
        outcome: Outcome::Fault(6),
    },
    Event {
        faction: 1,
        unit: 5,
        line: 0,
        verb: EventVerb::Upkeep,
        outcome: Outcome::Starved(1),
    },
];

/// Scenes with structures, items and skills, the second also with faulty lines and events, and the
/// wanted reports.
static WHOLE: [Case; 2] = [
    Case {
        scene: Scene {
            people: &[
                SceneUnit {
                    region: 3,
                    structure: 1,
                    men: 2,
                    money: 50,
                    guard: 1,
                    has: &[(WOOD, 12), (SAILING, 60)],
                    ..MAN
                },
                SceneUnit {
                    faction: 2,
                    region: 3,
                    structure: 1,
                    ..MAN
                },
            ],
            built: &[Built {
                kind: BOAT,
                name: "Ship 1",
                region: 3,
                done: 10,
                owner: 1,
            }],
            ..NOBODY
        },
        wanted: "Atlantis report, month 0, faction 1 \"Avalon\".
Orders:
None.
Region 3 \"Far\", forest: 200 peasants, 100 money.
Exits: north 4, west 2.
Structure 1 \"Ship 1\", boat, 10 of 10, owner 1.
* Unit 1 \"Unit 1\": 2 men, 50 money, guard, in 1, 12 wood, sailing 1 (60).
- Unit 2 \"Unit 2\" of faction 2 \"Bree\": 1 men, in 1.
",
        ..BLANK
    },
    Case {
        scene: Scene {
            people: &[
                SceneUnit {
                    men: 3,
                    money: 25,
                    guard: 1,
                    has: &[(OBSERVATION, 90), (LUMBERJACK, 100), (CART, 2), (WOOD, 12)],
                    ..MAN
                },
                SceneUnit {
                    faction: 2,
                    structure: 1,
                    men: 2,
                    money: 999,
                    has: &[(STEALTH, 60), (WOOD, 5)],
                    ..MAN
                },
                SceneUnit {
                    structure: 2,
                    region: 1,
                    ..HIDER
                },
                SceneUnit {
                    region: 3,
                    structure: 3,
                    ..MAN
                },
                SceneUnit {
                    region: 3,
                    structure: 3,
                    men: 2,
                    money: 50,
                    has: &[(SAILING, 60)],
                    ..MAN
                },
                SceneUnit {
                    faction: 2,
                    region: 3,
                    men: 4,
                    guard: 1,
                    ..MAN
                },
                HIDER,
            ],
            built: &[
                Built {
                    kind: BOAT,
                    name: "Gull",
                    region: 1,
                    done: 4,
                    owner: 2,
                },
                Built {
                    kind: LODGE,
                    name: "Lodge",
                    region: 1,
                    done: 20,
                    owner: 3,
                },
                Built {
                    kind: BOAT,
                    name: "Ship 1",
                    region: 3,
                    done: 10,
                    owner: 5,
                },
                Built {
                    kind: LODGE,
                    name: "Hut",
                    region: 1,
                    done: 1,
                    owner: 0,
                },
                Built {
                    kind: LODGE,
                    name: "Unseen",
                    region: 4,
                    done: 1,
                    owner: 0,
                },
            ],
            ..NOBODY
        },
        faults: &FAULTS,
        events: &EVENTS,
        wanted: "Atlantis report, month 0, faction 1 \"Avalon\".
Orders:
Line 5: 2 UnknownOrder.
Unit 1, line 6, WORK: done 12.
Unit 4, line 9, SAIL: fault 6 NotOwner.
Unit 5: 1 starved.
Region 1 \"Shore\", plain: 1000 peasants, 500 money.
Exits: east 2.
Structure 1 \"Gull\", boat, 4 of 10, owner 2.
Structure 2 \"Lodge\", lodge, 20 of 20, owner 0.
Structure 4 \"Hut\", lodge, 1 of 20, owner 0.
* Unit 1 \"Unit 1\": 3 men, 25 money, guard, 12 wood, 2 cart, lumberjack 1 (100), observation 1 (90).
- Unit 2 \"Unit 2\" of faction 2 \"Bree\": 2 men, in 1.
Region 3 \"Far\", forest: 200 peasants, 100 money.
Exits: north 4, west 2.
Structure 3 \"Ship 1\", boat, 10 of 10, owner 5.
* Unit 4 \"Unit 4\": 1 men, 0 money, in 3.
* Unit 5 \"Unit 5\": 2 men, 50 money, in 3, sailing 1 (60).
- Unit 6 \"Unit 6\" of faction 2 \"Bree\": 4 men, guard.
",
        ..BLANK
    },
];

fn empty(campaign: &mut Campaign, number: u32) {
    if let Some(holding) = campaign.unit_mut(number) {
        holding.set_men(0);
    }
}

fn empty_all(campaign: &mut Campaign, numbers: &[u32]) {
    for number in numbers {
        empty(campaign, *number);
    }
}

fn assert_report(
    rt: &impl Abort,
    alloc: Global,
    world: &World,
    campaign: &Campaign,
    case: &Case,
) -> Result<(), Fail> {
    let seen = view(alloc, world, campaign, case.faction)?;
    let text = report_text(alloc, world, &seen, case.faults, case.events)?;
    assert_text(rt, text.as_str(), case.wanted);
    Ok(())
}

fn assert_case(rt: &impl Abort, alloc: Global, world: &World, case: &Case) -> Result<(), Fail> {
    let mut campaign = campaign_of(alloc, world, &case.scene)?;
    empty_all(&mut campaign, case.empty);
    assert_report(rt, alloc, world, &campaign, case)
}

fn assert_cases(rt: &impl Abort, alloc: Global, cases: &[Case]) -> Result<(), Fail> {
    let world = read_world(alloc, ISLE)?;
    for case in cases {
        assert_case(rt, alloc, &world, case)?;
    }
    Ok(())
}

/// Of the units of a region a report shows the faction's own, those that guard, and those whose
/// level of stealth is at most the faction's best level of observation there.
#[test]
fn hidden_units(rt: HostRuntime) -> Result<(), Fail> {
    assert_cases(&rt, rt.alloc(), &HIDDEN)
}

#[test]
fn units_without_men(rt: HostRuntime) -> Result<(), Fail> {
    assert_cases(&rt, rt.alloc(), &EMPTY)
}

#[test]
fn all_sorts_of_lines(rt: HostRuntime) -> Result<(), Fail> {
    assert_cases(&rt, rt.alloc(), &WHOLE)
}
