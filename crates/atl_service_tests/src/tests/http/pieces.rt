//! Tests of requests that arrive in pieces or cut short, of replies written in pieces, and of long
//! heads and bodies.
use super::compare::assert_number;
use super::making::{assert_books, assert_reply, new_service, outcome_text};
use super::readers_and_writers::{NarrowWriter, Pieces};
use super::requests::{BAD_REQUEST, JOIN, JOINED, NO_ROUTE, REPORT, REPORTED, TOO_LONG};
use super::serving::HttpService;
use crate::tests::compare::{assert_count, assert_text};
use std::alloc::Global;
use std::process::Abort;
use std::test::Fail;

const FOUNDED: &str = "money founding 500
money total 500
people founding 1000
people total 1000
";

fn assert_cut_and_whole(
    rt: &impl Abort,
    alloc: Global,
    service: &mut impl HttpService,
) -> Result<(), Fail> {
    assert_reply(
        rt,
        alloc,
        service,
        &mut Pieces::of(&JOIN.as_bytes()[..62], 50),
        "cut",
    );
    assert_books(rt, service, FOUNDED)?;
    assert_number(rt, service.next_faction(), 1);
    assert_reply(
        rt,
        alloc,
        service,
        &mut Pieces::of(JOIN.as_bytes(), 50),
        JOINED,
    );
    Ok(())
}

/// How many bytes each read of a join gives, and after how many such reads the join is whole.
static BY_PIECES: [(usize, usize); 3] = [(1, JOIN.len()), (8, 11), (JOIN.len(), 1)];

fn assert_failing_reads(rt: &impl Abort, alloc: Global, service: &mut impl HttpService) {
    for (piece, reads) in BY_PIECES.iter() {
        for done in 0..*reads {
            let mut reader = Pieces::of(JOIN.as_bytes(), *piece);
            reader.reads_left = done;
            assert_reply(rt, alloc, service, &mut reader, "read fault");
        }
    }
}

fn assert_joining_in_pieces(rt: &impl Abort, alloc: Global, service: &mut impl HttpService) {
    assert_failing_reads(rt, alloc, service);
    let mut reader = Pieces::of(JOIN.as_bytes(), 1);
    reader.interruptions = 1;
    reader.reads_left = 2 * JOIN.len();
    assert_reply(rt, alloc, service, &mut reader, JOINED);
    assert_writing_in_pieces(rt, alloc, service);
}

fn assert_each_front_is_cut(rt: &impl Abort, alloc: Global, service: &mut impl HttpService) {
    for len in 0..JOIN.len() {
        assert_reply(rt, alloc, service, &mut &JOIN.as_bytes()[..len], "cut");
    }
    assert_reply(rt, alloc, service, &mut JOIN.as_bytes(), JOINED);
}

fn assert_writing_in_pieces(rt: &impl Abort, alloc: Global, service: &mut impl HttpService) {
    let mut writer = NarrowWriter::of(alloc, REPORTED.len(), true);
    writer.interruptions = 1;
    let mut reader = REPORT.as_bytes();
    let served = service.serve(alloc, &mut reader, &mut writer);
    assert_text(rt, outcome_text(served, &writer.taken), REPORTED);
}

/// Requests with bytes after their end, how many bytes are read if each read gives one, and the
/// replies.
static NO_FURTHER: [(&str, usize, &str); 4] = [
    (
        "POST /join HTTP/1.1\r\nHost: x\r\nContent-Length: 29\r\n\r\n{\"name\":\"Avalon\",\"pass\":\"pw\"} and more",
        JOIN.len(),
        JOINED,
    ),
    (
        "GET /report/1 HTTP/1.1\r\nHost: x\r\nAtlantis-Pass: pw\r\n\r\nContent",
        REPORT.len(),
        REPORTED,
    ),
    (
        "POST /join HTTP/1.0\r\nContent-Length: 65537\r\n\r\n{\"name\":",
        46,
        TOO_LONG,
    ),
    ("GET /joins HTTP/1.0\r\n\r\nGET", 23, NO_ROUTE),
];

fn assert_no_further_reading(rt: &impl Abort, alloc: Global, service: &mut impl HttpService) {
    for (request, reads, wanted) in NO_FURTHER.iter() {
        let mut reader = Pieces::of(request.as_bytes(), 1);
        assert_reply(rt, alloc, service, &mut reader, wanted);
        assert_count(rt, reader.reads, *reads);
    }
}

/// The head of the request with the longest mailing that is accepted, of 65,536 bytes.
const LONGEST_HEAD: &str =
    "POST /orders/1 HTTP/1.0\r\nAtlantis-Pass: pw\r\nContent-Length: 65536\r\n\r\n";

const MAILED: &str =
    "HTTP/1.1 200 OK\r\nContent-Type: application/json\r\nContent-Length: 24\r\nConnection: close\r\n\r\n{\"faults\":[],\"orders\":0}";

/// The mailing is a header of 11 bytes, and line feeds.
fn longest_request(alloc: Global) -> Result<Vec<u8>, Fail> {
    let mut request = Vec::from_slice(alloc, LONGEST_HEAD.as_bytes())?;
    request.extend_from_slice(b"#ATLANTIS 1")?;
    request.extend_from_slice(&b"\n".repeat(alloc, 65_525)?)?;
    Ok(request)
}

fn assert_mailing_byte_by_byte(
    rt: &impl Abort,
    alloc: Global,
    service: &mut impl HttpService,
) -> Result<(), Fail> {
    assert_reply(rt, alloc, service, &mut JOIN.as_bytes(), JOINED);
    let request = longest_request(alloc)?;
    let mut reader = Pieces::of(&request, 1);
    assert_reply(rt, alloc, service, &mut reader, MAILED);
    assert_count(rt, reader.reads, LONGEST_HEAD.len() + 65_536);
    Ok(())
}

/// One field has a value of `long` bytes, and `fields` short ones follow.
fn head(alloc: Global, long: usize, fields: usize) -> Result<Vec<u8>, Fail> {
    let mut head = Vec::from_slice(alloc, b"GET /report/1 HTTP/1.0\r\nAtlantis-Pass: pw\r\nA:")?;
    head.extend_from_slice(&b"x".repeat(alloc, long)?)?;
    head.extend_from_slice(&b"\r\nB:".repeat(alloc, fields)?)?;
    head.extend_from_slice(b"\r\n\r\n")?;
    Ok(head)
}

/// Heads at the limits of 8,192 bytes and 32 fields, and just above: the length of the long field's
/// value, how many short fields follow, and the reply. 49 bytes and 4 a short field come besides.
static LONG_HEADS: [(usize, usize, &str); 4] = [
    (8_143, 0, REPORTED),
    (8_144, 0, BAD_REQUEST),
    (1, 30, REPORTED),
    (1, 31, BAD_REQUEST),
];

fn assert_long_head(
    rt: &impl Abort,
    alloc: Global,
    service: &mut impl HttpService,
    long: usize,
    fields: usize,
    wanted: &str,
) -> Result<(), Fail> {
    let request = head(alloc, long, fields)?;
    assert_reply(rt, alloc, service, &mut request.as_slice(), wanted);
    Ok(())
}

fn assert_long_heads(
    rt: &impl Abort,
    alloc: Global,
    service: &mut impl HttpService,
) -> Result<(), Fail> {
    assert_reply(rt, alloc, service, &mut JOIN.as_bytes(), JOINED);
    for (long, fields, wanted) in LONG_HEADS.iter() {
        assert_long_head(rt, alloc, service, *long, *fields, wanted)?;
    }
    Ok(())
}

#[test]
fn in_pieces(rt: HostRuntime) -> Result<(), Fail> {
    let mut service = new_service(rt.alloc())?;
    assert_joining_in_pieces(&rt, rt.alloc(), &mut service);
    let _conn = service.end();
    Ok(())
}

#[test]
fn cut_requests_run_no_command(rt: HostRuntime) -> Result<(), Fail> {
    let mut service = new_service(rt.alloc())?;
    assert_each_front_is_cut(&rt, rt.alloc(), &mut service);
    let _conn = service.end();
    Ok(())
}

#[test]
fn in_two_pieces(rt: HostRuntime) -> Result<(), Fail> {
    let mut service = new_service(rt.alloc())?;
    let done = assert_cut_and_whole(&rt, rt.alloc(), &mut service);
    let _conn = service.end();
    done
}

#[test]
fn no_further(rt: HostRuntime) -> Result<(), Fail> {
    let mut service = new_service(rt.alloc())?;
    assert_no_further_reading(&rt, rt.alloc(), &mut service);
    let _conn = service.end();
    Ok(())
}

/// A head of 8,192 bytes and one of 32 fields are accepted; one byte or one field more is refused.
#[test]
fn heads_at_the_limit(rt: HostRuntime) -> Result<(), Fail> {
    let mut service = new_service(rt.alloc())?;
    let done = assert_long_heads(&rt, rt.alloc(), &mut service);
    let _conn = service.end();
    done
}

#[test]
fn the_longest_mailing(rt: HostRuntime) -> Result<(), Fail> {
    let mut service = new_service(rt.alloc())?;
    let done = assert_mailing_byte_by_byte(&rt, rt.alloc(), &mut service);
    let _conn = service.end();
    done
}
