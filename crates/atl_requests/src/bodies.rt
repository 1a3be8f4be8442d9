//! Writes the bodies of replies to commands that were carried out, and such replies. After an
//! AllocError `out` may have some of what is written to it. See docs/FORMATS.md, "HTTP".
ghost use Rattle.std.specs.Prelude.{◌≡◌, ◌++◌, IfOk, OnOk, string_bytes};
ghost use Rattle.atl_requests.specs.Bodies.{joined_body, pair, more_pairs, pairs, mailed_body, month_body, success};
ghost use Rattle.atl_requests.specs.Io.{MatchesReply};

use crate::message::{Message, reply_message};
use atl_lines::FaultyLine;
use http::StatusCode;
use std::alloc::{AllocError, Global};
use std::fmt::Write;

/// The body of the reply to a join, with the numbers of the faction and of its unit. AllocError
/// without memory.
#[tactic(auto, unfolding(crate::specs::Bodies::joined_body))]
pub fn joined_body(alloc: Global, faction: u32, unit: u32) -> Result<String, AllocError>
    ensures { IfOk result (λ body. string_bytes body ≡ joined_body faction unit) }
{
    format!(in alloc; "{{\"faction\":{faction},\"unit\":{unit}}}")
}

#[tactic(auto, unfolding(crate::specs::Bodies::pair))]
fn write_pair(out: &mut String, faulty: &FaultyLine) -> Result<(), AllocError>
    ensures { OnOk result (string_bytes out.new ≡ string_bytes out.old ++ pair faulty.now) }
{
    let line = faulty.line;
    let number = faulty.fault.number();
    write!(out, "[{line},{number}]")
}

fn write_more_pairs(out: &mut String, faults: &[FaultyLine]) -> Result<(), AllocError>
    ensures { OnOk result (string_bytes out.new ≡ string_bytes out.old ++ more_pairs faults.now) }
{
    for faulty in faults {
        out.push(',')?;
        write_pair(out, faulty)?;
    }
    Ok(())
}

fn write_pairs(out: &mut String, faults: &[FaultyLine]) -> Result<(), AllocError>
    ensures { OnOk result (string_bytes out.new ≡ string_bytes out.old ++ pairs faults.now) }
{
    match faults {
        [] => Ok(()),
        [faulty, more @ ..] => {
            write_pair(out, faulty)?;
            write_more_pairs(out, more)
        }
    }
}

/// The body of the reply to a mailing, with the number of its orders and its faulty lines.
/// AllocError without memory.
#[tactic(auto, unfolding(crate::specs::Bodies::mailed_body))]
pub fn mailed_body(
    alloc: Global,
    orders: usize,
    faults: &[FaultyLine],
) -> Result<String, AllocError>
    ensures { IfOk result (λ body. string_bytes body ≡ mailed_body orders faults.now) }
{
    let mut body = String::from_str(alloc, "{\"faults\":[")?;
    write_pairs(&mut body, faults)?;
    write!(&mut body, "],\"orders\":{orders}}}")?;
    Ok(body)
}

/// The body of the reply to the closing of a month, with its number. AllocError without memory.
#[tactic(auto, unfolding(crate::specs::Bodies::month_body))]
pub fn month_body(alloc: Global, month: u32) -> Result<String, AllocError>
    ensures { IfOk result (λ body. string_bytes body ≡ month_body month) }
{
    format!(in alloc; "{{\"month\":{month}}}")
}

/// The reply of status 200 with this content type and this body. AllocError without memory.
pub fn success_message(alloc: Global, kind: &str, body: &str) -> Result<Message, AllocError>
    ensures { IfOk result (MatchesReply (success kind.now body.now)) }
{
    reply_message(alloc, StatusCode::OK, None, kind, body)
}
