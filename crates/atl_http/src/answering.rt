//! Writes the reply to the answer of a command: status and body. AllocError without memory for the
//! reply's bytes. See docs/FORMATS.md, "HTTP".
ghost use Rattle.std.specs.Prelude.{◌≡◌, IfOk};
ghost use Rattle.atl_requests.specs.Io.{MatchesReply};
ghost use Rattle.atl_http.specs.Answered.{refusal_status, answer_reply};

use atl_commands::{Answer, Fault, Refusal};
use atl_requests::bodies::{joined_body, mailed_body, month_body, success_message};
use atl_requests::message::{JSON, Message, NO_NUMBER, PLAIN, error_message};
use http::StatusCode;
use std::alloc::{AllocError, Global};

fn refusal_status(refusal: Refusal) -> StatusCode
    ensures { result ≡ refusal_status refusal }
{
    match refusal {
        Refusal::BadName
        | Refusal::BadPassText
        | Refusal::NoHeader
        | Refusal::BadHeader
        | Refusal::WrongDice => StatusCode::BAD_REQUEST,
        Refusal::WrongPass | Refusal::Gone => StatusCode::FORBIDDEN,
        Refusal::NoFaction => StatusCode::NOT_FOUND,
        Refusal::NameTaken
        | Refusal::Full
        | Refusal::WrongFaction
        | Refusal::WrongMonth
        | Refusal::MonthLimit => StatusCode::CONFLICT,
        Refusal::TooLong => StatusCode::PAYLOAD_TOO_LARGE,
    }
}

fn refusal_message(alloc: Global, refusal: Refusal) -> Result<Message, AllocError>
    ensures { IfOk result (MatchesReply (answer_reply (Answer.Refused refusal))) }
{
    error_message(
        alloc,
        refusal_status(refusal),
        None,
        refusal.name(),
        refusal.number(),
    )
}

fn fault_message(alloc: Global, fault: Fault) -> Result<Message, AllocError>
    ensures { IfOk result (MatchesReply (answer_reply (Answer.Fault fault))) }
{
    error_message(
        alloc,
        StatusCode::INTERNAL_SERVER_ERROR,
        None,
        fault.name(),
        NO_NUMBER,
    )
}

/// The reply to the answer of a command. AllocError without memory for its bytes.
pub fn answer_message(alloc: Global, answer: &Answer) -> Result<Message, AllocError>
    ensures { IfOk result (MatchesReply (answer_reply answer.now)) }
{
    match answer {
        Answer::Joined { faction, unit } => {
            let body = joined_body(alloc, *faction, *unit)?;
            success_message(alloc, JSON, body.as_str())
        }
        Answer::Mailed { orders, faults } => {
            let body = mailed_body(alloc, *orders, faults.as_slice())?;
            success_message(alloc, JSON, body.as_str())
        }
        Answer::MonthDone { month } => {
            let body = month_body(alloc, *month)?;
            success_message(alloc, JSON, body.as_str())
        }
        Answer::Text(text) => success_message(alloc, PLAIN, text.as_str()),
        Answer::Refused(refusal) => refusal_message(alloc, *refusal),
        Answer::Fault(fault) => fault_message(alloc, *fault),
    }
}
