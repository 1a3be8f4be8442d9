//! Tests that a request is served after up to 1,000,000 reads and fewer than 1,000,000 interrupted
//! writes, and ends in a fault beyond that.
use super::broken::assert_breaks_off;
use super::making::{assert_reply, new_service, outcome_text};
use super::readers_and_writers::{NarrowWriter, Pieces};
use super::requests::{JOIN, JOINED};
use super::serving::HttpService;
use crate::tests::compare::{assert_count, assert_text};
use std::alloc::Global;
use std::process::Abort;
use std::test::Fail;

/// How many bytes a read gives, how many reads are interrupted before each, and how many reads
/// there are in all. They are 1,000,000 in one piece and in two, and 81 times 12,345 byte by byte.
static READS: [(usize, usize, usize); 3] = [
    (81, 999_999, 1_000_000),
    (41, 499_999, 1_000_000),
    (1, 12_344, 999_945),
];

/// How many bytes a read gives, and how many reads are interrupted before each, so that the request
/// isn't whole after 1,000,000 reads.
static TOO_MANY_READS: [(usize, usize); 4] = [
    (81, 1_000_000),
    (41, 500_000),
    (1, 12_345),
    (1, usize::MAX),
];

fn assert_join_read(
    rt: &impl Abort,
    alloc: Global,
    service: &mut impl HttpService,
    reader: &mut Pieces,
    words: &str,
    reads: usize,
) {
    assert_reply(rt, alloc, service, reader, words);
    assert_count(rt, reader.reads, reads);
}

fn assert_reads_are_enough(rt: &impl Abort, alloc: Global) -> Result<(), Fail> {
    for (piece, interruptions, reads) in READS.iter() {
        let mut service = new_service(alloc)?;
        let mut reader = Pieces::of(JOIN.as_bytes(), *piece);
        reader.interruptions = *interruptions;
        assert_join_read(rt, alloc, &mut service, &mut reader, JOINED, *reads);
        let _conn = service.end();
    }
    Ok(())
}

#[test]
fn reads_within_the_bound(rt: HostRuntime) -> Result<(), Fail> {
    assert_reads_are_enough(&rt, rt.alloc())
}

/// No command is run: the faction that joins next is the first.
fn assert_reads_are_too_many(rt: &impl Abort, alloc: Global, service: &mut impl HttpService) {
    for (piece, interruptions) in TOO_MANY_READS.iter() {
        let mut reader = Pieces::of(JOIN.as_bytes(), *piece);
        reader.interruptions = *interruptions;
        assert_join_read(rt, alloc, service, &mut reader, "read fault", 1_000_000);
    }
    assert_reply(rt, alloc, service, &mut JOIN.as_bytes(), JOINED);
}

#[test]
fn reads_beyond_the_bound(rt: HostRuntime) -> Result<(), Fail> {
    let mut service = new_service(rt.alloc())?;
    assert_reads_are_too_many(&rt, rt.alloc(), &mut service);
    let _conn = service.end();
    Ok(())
}

/// How many bytes a write takes, and how many writes are interrupted before each.
/// In all 999,999, 999,998 and 999,936 are interrupted before the 112 bytes of the reply are
/// written.
static WRITES: [(usize, usize); 3] = [(112, 999_999), (56, 499_999), (1, 8_928)];

/// Rows in which too many writes are interrupted: bytes per write, interruptions before each write,
/// and the bytes and writes done when serving ends.
static TOO_MANY_WRITES: [(usize, usize, usize, usize); 4] = [
    (112, 1_000_000, 0, 1_000_000),
    (56, 500_000, 56, 1_000_001),
    (1, 8_929, 111, 1_000_111),
    (1, usize::MAX, 0, 1_000_000),
];

fn assert_join_written(
    rt: &impl Abort,
    alloc: Global,
    service: &mut impl HttpService,
    writer: &mut NarrowWriter,
) {
    let mut reader = JOIN.as_bytes();
    let served = service.serve(alloc, &mut reader, writer);
    assert_text(rt, outcome_text(served, &writer.taken), JOINED);
}

fn assert_replies_are_written(rt: &impl Abort, alloc: Global) -> Result<(), Fail> {
    for (piece, interruptions) in WRITES.iter() {
        let mut service = new_service(alloc)?;
        let mut writer = NarrowWriter::of(alloc, usize::MAX, true);
        writer.piece = *piece;
        writer.interruptions = *interruptions;
        assert_join_written(rt, alloc, &mut service, &mut writer);
        let _conn = service.end();
    }
    Ok(())
}

#[test]
fn writes_within_the_bound(rt: HostRuntime) -> Result<(), Fail> {
    assert_replies_are_written(&rt, rt.alloc())
}

fn assert_replies_break_off(rt: &impl Abort, alloc: Global) -> Result<(), Fail> {
    for (piece, interruptions, taken, writes) in TOO_MANY_WRITES.iter() {
        let mut service = new_service(alloc)?;
        let mut writer = NarrowWriter::of(alloc, usize::MAX, true);
        writer.piece = *piece;
        writer.interruptions = *interruptions;
        assert_breaks_off(rt, alloc, &mut service, &mut writer, *taken);
        assert_count(rt, writer.writes, *writes);
        let _conn = service.end();
    }
    Ok(())
}

#[test]
fn writes_beyond_the_bound(rt: HostRuntime) -> Result<(), Fail> {
    assert_replies_break_off(&rt, rt.alloc())
}
