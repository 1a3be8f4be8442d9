//! Turns rows, books and answers into texts, so that each can be compared as a whole.
use atl_campaign::{Campaign, Parts};
use atl_service::{Answer, Service, open};
use sqlite::{Alter, Connection};
use std::alloc::Global;

/// All rows of a campaign's tables as one text, as `Debug` prints them; None if memory is short.
pub fn text_of(alloc: Global, parts: &Parts) -> Option<String> {
    format!(in alloc; "{parts:?}").ok()
}

pub fn rows(alloc: Global, campaign: Option<&Campaign>) -> Option<String> {
    let parts = campaign?.parts().ok()?;
    text_of(alloc, &parts)
}

/// All rows of the campaign in a database as one text, as `Debug` prints them; None if it can't be
/// opened, or memory is short.
pub fn rows_of<S: Alter + Drop>(alloc: Global, conn: Connection<S>) -> Option<String> {
    match open(alloc, conn) {
        Ok(service) => rows(alloc, service.campaign()),
        Err(_) => None,
    }
}

pub fn books<S: Alter>(service: &Service<S>) -> Option<String> {
    service.books()?.ok()
}

/// An answer as text, for comparison; the text of a report is taken as it is. None if memory is
/// short.
pub fn answer_text(alloc: Global, answer: &Answer) -> Option<String> {
    match answer {
        Answer::Joined { faction, unit } => format!(in alloc; "joined {faction} {unit}").ok(),
        Answer::Mailed { orders, faults } => {
            format!(in alloc; "mailed {orders} {:?}", faults.as_slice()).ok()
        }
        Answer::MonthDone { month } => format!(in alloc; "month done {month}").ok(),
        Answer::Text(text) => String::from_str(alloc, text.as_str()).ok(),
        Answer::Refused(refusal) => format!(in alloc; "refused {refusal}").ok(),
        Answer::Fault(fault) => format!(in alloc; "fault {fault}").ok(),
    }
}

pub fn is_text(made: Option<String>, wanted: &str) -> bool {
    match &made {
        Some(made) => made.as_str() == wanted,
        None => false,
    }
}
