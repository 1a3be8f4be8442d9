//! Tests that a command has run even if its reply can't be written to the end, and tests of the
//! numbers of faults.
use super::compare::{assert_fault, assert_number, assert_true};
use super::making::new_service;
use super::readers_and_writers::NarrowWriter;
use super::requests::{JOIN, JOINED};
use super::serving::HttpService;
use crate::tests::compare::assert_count;
use atl_http::HttpFault;
use std::alloc::Global;
use std::process::Abort;
use std::test::Fail;

/// Serves a join to a writer that takes `taken` bytes; asserts WriteFault, the bytes written, and
/// that the faction has joined.
pub(crate) fn assert_breaks_off(
    rt: &impl Abort,
    alloc: Global,
    service: &mut impl HttpService,
    writer: &mut NarrowWriter,
    taken: usize,
) {
    let mut reader = JOIN.as_bytes();
    let served = service.serve(alloc, &mut reader, writer);
    assert_fault(rt, served, HttpFault::WriteFault);
    assert_count(rt, writer.taken.len(), taken);
    assert_true(rt, JOINED.as_bytes().starts_with(&writer.taken));
    assert_number(rt, service.next_faction(), 2);
}

fn assert_write_fault_after(
    rt: &impl Abort,
    alloc: Global,
    most: usize,
    fails: bool,
) -> Result<(), Fail> {
    let mut service = new_service(alloc)?;
    let mut writer = NarrowWriter::of(alloc, most, fails);
    assert_breaks_off(rt, alloc, &mut service, &mut writer, most);
    let _conn = service.end();
    Ok(())
}

#[test]
fn writes_that_fail(rt: HostRuntime) -> Result<(), Fail> {
    for most in 0..JOINED.len() {
        assert_write_fault_after(&rt, rt.alloc(), most, true)?;
    }
    Ok(())
}

#[test]
fn writes_that_take_nothing(rt: HostRuntime) -> Result<(), Fail> {
    for most in 0..JOINED.len() {
        assert_write_fault_after(&rt, rt.alloc(), most, false)?;
    }
    Ok(())
}

static NUMBERS: [(HttpFault, Option<u8>); 4] = [
    (HttpFault::Cut, Some(1)),
    (HttpFault::ReadFault, Some(2)),
    (HttpFault::WriteFault, Some(3)),
    (HttpFault::Memory, None),
];

fn assert_numbers(rt: &impl Abort, faults: &[(HttpFault, Option<u8>)]) {
    for (fault, number) in faults.iter() {
        assert_true(rt, fault.number() == *number);
    }
}

/// The numbers are those of docs/FORMATS.md, "For developers".
#[test]
fn faults_have_their_numbers(rt: HostRuntime) {
    assert_numbers(&rt, &NUMBERS);
}
