//! Makes services, and plays tables of requests with their wanted replies.
use super::compare::assert_true;
use super::serving::HttpService;
use crate::tests::compare::assert_text;
use crate::tests::making::found_in_memory;
use atl_http::HttpFault;
use atl_service::Service;
use atl_test_worlds::SMALL_WORLD;
use sqlite::MemStore;
use std::alloc::Global;
use std::io::Read;
use std::process::Abort;
use std::str;
use std::test::Fail;

/// A request, and its wanted reply or the name of the fault.
pub(crate) type Case = (&'static str, &'static str);

pub(crate) fn new_service(alloc: Global) -> Result<Service<MemStore>, Fail> {
    found_in_memory(alloc, SMALL_WORLD)
}

fn status_in(reply: &str) -> Option<u16> {
    let (_, rest) = reply.split_once(' ')?;
    let (status, _) = rest.split_once(' ')?;
    status.parse::<u16>().ok()
}

/// Serving returned `status`. A reply with another one gives words that no case wants.
fn reply_of(status: u16, written: &[u8]) -> &str {
    match str::from_utf8(written) {
        Ok(reply) if status_in(reply) == Some(status) => reply,
        Ok(_) => "another status",
        Err(_) => "no text",
    }
}

/// How serving a request ended, as text: the reply, or the name of the fault; `a part` if there was
/// a fault after bytes were written.
pub(crate) fn outcome_text(served: Result<u16, HttpFault>, written: &[u8]) -> &str {
    match served {
        Ok(status) => reply_of(status, written),
        Err(_) if !written.is_empty() => "a part",
        Err(HttpFault::Cut) => "cut",
        Err(HttpFault::ReadFault) => "read fault",
        Err(HttpFault::WriteFault) => "write fault",
        Err(HttpFault::Memory) => "memory",
    }
}

/// Asserts that a service isn't closed, and that the text of its books is `wanted`.
pub(crate) fn assert_books(
    rt: &impl Abort,
    service: &impl HttpService,
    wanted: &str,
) -> Result<(), Fail> {
    match service.books() {
        Some(text) => assert_text(rt, text?.as_str(), wanted),
        None => assert_true(rt, false),
    }
    Ok(())
}

pub(crate) fn assert_reply(
    rt: &impl Abort,
    alloc: Global,
    service: &mut impl HttpService,
    reader: &mut impl Read,
    wanted: &str,
) {
    let mut written = Vec::new(alloc);
    let served = service.serve(alloc, reader, &mut written);
    assert_text(rt, outcome_text(served, &written), wanted);
}

pub(crate) fn assert_replies(
    rt: &impl Abort,
    alloc: Global,
    service: &mut impl HttpService,
    cases: &[Case],
) {
    for (request, wanted) in cases.iter() {
        let mut reader = request.as_bytes();
        assert_reply(rt, alloc, service, &mut reader, wanted);
    }
}

pub(crate) fn play(rt: &impl Abort, alloc: Global, cases: &[Case]) -> Result<(), Fail> {
    let mut service = new_service(alloc)?;
    assert_replies(rt, alloc, &mut service, cases);
    let _conn = service.end();
    Ok(())
}
