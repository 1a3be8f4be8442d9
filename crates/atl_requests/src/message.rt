//! Writes replies as bytes: status line, fields and body. See docs/FORMATS.md, "HTTP".
ghost use Rattle.std.specs.Prelude.{◌≡◌, IfOk, OnOk, ◌++◌, [], unwrap_or, string_bytes};
ghost use Rattle.http.specs.StatusCode.{reason_phrase};
ghost use Rattle.atl_parsing.specs.Replies.{json, allow_line, head_of, error_body, problem_reply};
ghost use Rattle.atl_requests.specs.Io.{MatchesReply};

use atl_parsing::problem::Problem;
use atl_parsing::route::Route;
use atl_world::let_go;
use http::StatusCode;
use std::alloc::{AllocError, Global};
use std::fmt::Write;

/// The content type of every reply but a report.
pub const JSON: &str = "application/json";

/// The content type of a report.
pub const PLAIN: &str = "text/plain";

/// The number in the error body of a problem or fault, which has no number of its own: 0.
pub const NO_NUMBER: u8 = 0;

/// A reply as it is sent: its status, and all its bytes from the status line on.
pub struct Message {
    pub status: u16,
    pub bytes: String,
}

impl Drop for Message {
    fn drop(self) {
        let_go!(self: Message { status, bytes });
    }
}

fn phrase_of(status: StatusCode) -> &'static str
    ensures { result.now ≡ unwrap_or (reason_phrase status) [] }
{
    match status.canonical_reason() {
        Some(phrase) => phrase,
        None => "",
    }
}

#[tactic(auto, unfolding(atl_parsing::specs::Replies::head_of))]
fn write_head(
    out: &mut String,
    status: StatusCode,
    kind: &str,
    body: &str,
) -> Result<(), AllocError>
    ensures { OnOk result
        (string_bytes out.new ≡ string_bytes out.old ++ head_of status kind.now body.now) }
{
    let number = status.as_u16();
    let phrase = phrase_of(status);
    let len = body.len();
    write!(
        out,
        "HTTP/1.1 {number} {phrase}\r\nContent-Type: {kind}\r\nContent-Length: {len}\r\nConnection: close\r\n"
    )
}

fn write_allowed(out: &mut String, allow: Option<Route>) -> Result<(), AllocError>
    ensures { OnOk result (string_bytes out.new ≡ string_bytes out.old ++ allow_line allow) }
{
    match allow {
        None => Ok(()),
        Some(route) => {
            let method = route.method();
            let method = method.as_str();
            write!(out, "Allow: {method}\r\n")
        }
    }
}

/// The reply with this status, route for the line `Allow` (None for no such line), content type and
/// body. AllocError without memory.
pub fn reply_message(
    alloc: Global,
    status: StatusCode,
    allow: Option<Route>,
    kind: &str,
    body: &str,
) -> Result<Message, AllocError>
    ensures { IfOk result
        (MatchesReply (record {
          status = status;
          allow = allow;
          kind = kind.now;
          body = body.now;
        })) }
{
    let mut bytes = String::new(alloc);
    write_head(&mut bytes, status, kind, body)?;
    write_allowed(&mut bytes, allow)?;
    write!(&mut bytes, "\r\n{body}")?;
    Ok(Message {
        status: status.as_u16(),
        bytes,
    })
}

#[tactic(auto, unfolding(atl_parsing::specs::Replies::error_body))]
fn error_body(alloc: Global, name: &str, number: u8) -> Result<String, AllocError>
    ensures { IfOk result (λ body. string_bytes body ≡ error_body name.now number) }
{
    format!(in alloc; "{{\"error\":\"{name}\",\"number\":{number}}}")
}

/// The reply with this status to a problem, refusal or fault, with its name and number as JSON (0
/// if it has none), and with a line `Allow` if `allow` gives a route. AllocError without memory.
pub fn error_message(
    alloc: Global,
    status: StatusCode,
    allow: Option<Route>,
    name: &str,
    number: u8,
) -> Result<Message, AllocError>
    ensures { IfOk result
        (MatchesReply (record {
          status = status;
          allow = allow;
          kind = json;
          body = error_body name.now
              number;
        })) }
{
    let body = error_body(alloc, name, number)?;
    reply_message(alloc, status, allow, JSON, body.as_str())
}

/// The reply to a request that failed a check. AllocError without memory for its bytes.
pub fn problem_message(alloc: Global, problem: Problem) -> Result<Message, AllocError>
    ensures { IfOk result (MatchesReply (problem_reply problem)) }
{
    let allow = match problem {
        Problem::BadMethod(route) => Some(route),
        _ => None,
    };
    error_message(alloc, problem.status(), allow, problem.name(), NO_NUMBER)
}
