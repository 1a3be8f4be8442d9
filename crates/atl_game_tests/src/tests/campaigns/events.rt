//! Tests of the numbers and names of the faults of orders (docs/RULES.md, "Events").
use crate::tests::compare::{assert_row, assert_text, assert_true};
use atl_campaign::EventFault;
use std::process::Abort;

static FAULTS: [(u8, &str); 24] = [
    (1, "NotYours"),
    (2, "NotHere"),
    (3, "NotEnough"),
    (4, "NoRoom"),
    (5, "Guarded"),
    (6, "NotOwner"),
    (7, "NotInside"),
    (8, "UnitLimit"),
    (9, "AtSea"),
    (10, "NoMen"),
    (11, "WrongNumber"),
    (12, "NotGuarding"),
    (13, "NoSkill"),
    (14, "NoMaterial"),
    (15, "Complete"),
    (16, "StructureLimit"),
    (17, "NoWay"),
    (18, "TooHeavy"),
    (19, "NotComplete"),
    (20, "NoCrew"),
    (21, "NotLearning"),
    (22, "CannotTeach"),
    (23, "NoFee"),
    (24, "NoMarket"),
];

fn assert_name(rt: &impl Abort, row: usize, number: u8, name: &str) {
    match EventFault::of_number(number) {
        Some(fault) => {
            assert_row(rt, row, u64::from(fault.number()), u64::from(number));
            assert_text(rt, fault.name(), name);
        }
        None => assert_true(rt, false),
    }
}

#[test]
fn event_faults(rt: HostRuntime) {
    for (row, (number, name)) in FAULTS.iter().enumerate() {
        assert_name(&rt, row, *number, name);
    }
    assert_true(&rt, EventFault::of_number(0).is_none());
    assert_true(&rt, EventFault::of_number(25).is_none());
    assert_true(&rt, EventFault::of_number(255).is_none());
}
