//! Tests of the numbers and texts of the faults of `load` and of `upgrade`. The numbers are in
//! docs/FORMATS.md, "For developers"; Memory has none.
use super::words::text_of;
use crate::tests::compare::{assert_fault_number, assert_text_at};
use atl_state::Rule;
use atl_store::{StoreFault, UpgradeFault};
use atl_tables::WorldFault;
use std::alloc::Global;
use std::process::Abort;
use std::test::Fail;

static OPENINGS: [(StoreFault, Option<u8>, &str); 5] = [
    (StoreFault::Store, Some(1), "Store"),
    (StoreFault::Damaged(Rule::Books), Some(2), "Damaged 11"),
    (StoreFault::NotACampaign, Some(3), "NotACampaign"),
    (StoreFault::OldFormat, Some(4), "OldFormat"),
    (StoreFault::Memory, None, "Memory"),
];

fn assert_opening_fault(
    rt: &impl Abort,
    alloc: Global,
    case: &(StoreFault, Option<u8>, &str),
) -> Result<(), Fail> {
    let (fault, number, text) = *case;
    assert_fault_number(rt, fault.number(), number);
    assert_text_at(rt, text, text_of(alloc, fault)?.as_str(), text);
    Ok(())
}

/// The numbers are those of docs/FORMATS.md, "For developers".
#[test]
fn faults_of_an_opening_have_their_numbers(rt: HostRuntime) -> Result<(), Fail> {
    for case in OPENINGS.iter() {
        assert_opening_fault(&rt, rt.alloc(), case)?;
    }
    Ok(())
}

static UPGRADES: [(Option<u8>, &str); 7] = [
    (Some(1), "Store"),
    (Some(2), "Damaged 11"),
    (Some(3), "NotACampaign"),
    (Some(4), "NotOld"),
    (Some(5), "World: 8 NoLand"),
    (Some(6), "Differs"),
    (None, "Memory"),
];

/// The numbers are those of docs/FORMATS.md, "For developers".
fn upgrade_fault(number: Option<u8>) -> UpgradeFault {
    match number {
        Some(1) => UpgradeFault::Store,
        Some(2) => UpgradeFault::Damaged(Rule::Books),
        Some(3) => UpgradeFault::NotACampaign,
        Some(4) => UpgradeFault::NotOld,
        Some(5) => UpgradeFault::World(WorldFault::NoLand),
        Some(6) => UpgradeFault::Differs,
        _ => UpgradeFault::Memory,
    }
}

fn assert_upgrade_fault(
    rt: &impl Abort,
    alloc: Global,
    case: &(Option<u8>, &str),
) -> Result<(), Fail> {
    let (number, text) = *case;
    let fault = upgrade_fault(number);
    assert_fault_number(rt, fault.number(), number);
    assert_text_at(rt, text, text_of(alloc, fault)?.as_str(), text);
    Ok(())
}

#[test]
fn faults_of_an_upgrade_have_their_numbers(rt: HostRuntime) -> Result<(), Fail> {
    for case in UPGRADES.iter() {
        assert_upgrade_fault(&rt, rt.alloc(), case)?;
    }
    Ok(())
}
