//! Gives the verdict on the bytes received so far (`seen`): a request, a problem, or more to read.
//! `front` are the first 8,192 of them, or all if fewer; `rest` are all after the head. `fields`
//! says where in `front` or `bytes` fields are, with room for 32, and `minor` is the digit after
//! `HTTP/1.`. AllocError without memory. See docs/FORMATS.md, "HTTP".
ghost use Rattle.std.specs.Prelude.{◌≡◌, ◌≤◌, All, IfOk, length, take, drop};
ghost use Rattle.httparse.specs.Spans.{IsHeaderWithin, IsRequestWithin, IsRequestOf};
ghost use Rattle.atl_parsing.specs.Checks.{head_checks};
ghost use Rattle.atl_parsing.specs.Heads.{most_head, most_fields, Judges, ComesTo};
ghost use Rattle.atl_parsing.specs.Finding.{field_pairs, EndsAs, ParsesHead};

use crate::checks::{head_checks, request_of};
use crate::problem::{CheckError, Problem};
use crate::request::{FinalVerdict, Progress, Verdict};
use httparse::Status;
use httparse::spans::{EMPTY_HEADER_SPAN, HeaderSpan, RequestSpans, parse_request};
use std::alloc::{AllocError, Global};

/// The most bytes of a head, its empty line among them.
const MOST_HEAD: usize = 8_192;

const MOST_FIELDS: usize = 32;

/// The progress of a whole head and the bytes `rest` after it: by the first four checks of the
/// head, and then by the body. All `fields` are within `bytes`. AllocError without memory.
fn progress_with_body(
    alloc: Global,
    minor: u8,
    method: &[u8],
    target: &[u8],
    bytes: &[u8],
    fields: &[HeaderSpan],
    rest: &[u8],
) -> Result<Progress, AllocError>
    requires { All (IsHeaderWithin (length bytes.now)) fields.now }
    ensures { IfOk result
        (EndsAs (head_checks minor method.now target.now (field_pairs bytes.now fields.now))
        rest.now) }
{
    let wanted = match head_checks(alloc, minor, method, target, bytes, fields) {
        Ok(wanted) => wanted,
        Err(CheckError::Memory) => return Err(AllocError),
        Err(CheckError::Failed(problem)) => return Ok(Progress::Ends(FinalVerdict::Refused(
            problem,
        ))),
    };
    if rest.len() < wanted.size {
        return Ok(Progress::Missing(wanted.size - rest.len()));
    }
    let body = &rest[..wanted.size];
    match request_of(alloc, wanted.route, wanted.pass, body) {
        Ok(request) => Ok(Progress::Ends(FinalVerdict::Asks(request))),
        Err(CheckError::Memory) => Err(AllocError),
        Err(CheckError::Failed(problem)) => Ok(Progress::Ends(FinalVerdict::Refused(problem))),
    }
}

#[tactic(auto, using(std::proofs::lemmas::List::take_min, crate::proofs::HeadLaws::front_within))]
fn front_of(seen: &[u8]) -> &[u8]
    ensures front { result.now ≡ take most_head seen.now }
    ensures within { length result.now ≤ length seen.now }
{
    &seen[..MOST_HEAD.min(seen.len())]
}

/// The result of parsing the first bytes as a head: whole, unfinished or refused.
#[derive(Drop, Clone, Copy)]
pub(crate) enum HeadParse {
    Whole(RequestSpans),
    /// The head isn't whole, and may become so, or the bytes end inside the target.
    Partial,
    /// Whatever bytes follow, there is no head, or it has too many fields.
    Refused,
}

/// Parses the front as a head, and leaves in `fields` where its fields are.
fn parse_head(front: &[u8], fields: &mut [HeaderSpan]) -> HeadParse
    requires { length fields.old ≡ most_fields }
    ensures finds { ParsesHead front.now fields.new result }
    ensures room { length fields.new ≡ most_fields }
{
    match parse_request(front, fields) {
        Ok(Status::Complete(head)) => HeadParse::Whole(head),
        Ok(Status::Partial) => HeadParse::Partial,
        Err(_) => HeadParse::Refused,
    }
}

fn first_fields(fields: &[HeaderSpan], count: usize) -> &[HeaderSpan]
    requires { count ≤ length fields.now }
    ensures { result.now ≡ take count fields.now }
{
    &fields[..count]
}

/// The received bytes after the first `len`; there must be at least `len` of them.
pub fn rest_after(seen: &[u8], len: usize) -> &[u8]
    requires { len ≤ length seen.now }
    ensures { result.now ≡ drop len seen.now }
{
    &seen[len..]
}

/// The progress on the bytes `seen`, whose front begins with the whole head at the spans of `head`.
fn progress_past_head(
    alloc: Global,
    seen: &[u8],
    front: &[u8],
    fields: &[HeaderSpan],
    head: &RequestSpans,
) -> Result<Progress, AllocError>
    requires front { front.now ≡ take most_head seen.now }
    requires within { length front.now ≤ length seen.now }
    requires room { length fields.now ≡ most_fields }
    requires finds { IsRequestWithin front.now fields.now head.now
        × IsRequestOf front.now fields.now head.now }
    ensures { IfOk result (ComesTo seen.now) }
{
    let method = head.method.of(front);
    let target = head.path.of(front);
    let fields = first_fields(fields, head.headers);
    let rest = rest_after(seen, head.len);
    progress_with_body(alloc, head.version, method, target, front, fields, rest)
}

/// The progress on the bytes `seen`; `fields` is room for where the fields of their head are.
fn progress_in(
    alloc: Global,
    seen: &[u8],
    fields: &mut [HeaderSpan],
) -> Result<Progress, AllocError>
    requires { length fields.old ≡ most_fields }
    ensures { IfOk result (ComesTo seen.now) }
{
    let front = front_of(seen);
    match parse_head(front, fields) {
        HeadParse::Whole(head) => progress_past_head(alloc, seen, front, fields, &head),
        HeadParse::Partial if seen.len() < MOST_HEAD => Ok(Progress::Missing(1)),
        HeadParse::Partial => Ok(Progress::Ends(FinalVerdict::Refused(Problem::BadRequest))),
        HeadParse::Refused => Ok(Progress::Ends(FinalVerdict::Refused(Problem::BadRequest))),
    }
}

/// The final verdict on the bytes so far, or how many are missing at least: 1 while the head isn't
/// whole, then as many as the body lacks. AllocError without memory for the routes or the request.
pub fn progress_of(alloc: Global, seen: &[u8]) -> Result<Progress, AllocError>
    ensures { IfOk result (ComesTo seen.now) }
{
    let mut fields = [EMPTY_HEADER_SPAN; MOST_FIELDS];
    progress_in(alloc, seen, &mut fields)
}

/// The verdict on the bytes received so far: more to read, refused, or a request. AllocError
/// without memory for the routes or the request. See docs/FORMATS.md, "HTTP".
pub fn verdict_on(alloc: Global, seen: &[u8]) -> Result<Verdict, AllocError>
    ensures { IfOk result (Judges seen.now) }
{
    Ok(progress_of(alloc, seen)?.verdict())
}
