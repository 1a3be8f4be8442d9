//! More assertions for the tests of HTTP, one for each type.
use atl_http::HttpFault;
use std::process::Abort;

pub(crate) fn assert_number(rt: &impl Abort, actual: u32, wanted: u32) {
    assert_eq!(rt; actual, wanted);
}

pub(crate) fn assert_fault(rt: &impl Abort, actual: Result<u16, HttpFault>, wanted: HttpFault) {
    assert_eq!(rt; actual.err(), Some(wanted));
}

pub(crate) fn assert_true(rt: &impl Abort, actual: bool) {
    assert!(rt; actual);
}
