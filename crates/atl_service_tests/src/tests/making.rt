//! Makes the commands and services of these tests, and names answers and causes.
use super::serving::Tables;
use atl_service::{Answer, Cause, Command, Fault, Refusal, Service, found, open};
use atl_world::Sequence;
use sqlite::{Alter, Connection, MemStore};
use std::alloc::Global;
use std::test::Fail;

fn bytes(alloc: Global, text: &str) -> Result<Sequence<u8>, Fail> {
    Ok(Sequence::from_slice(alloc, text.as_bytes())?)
}

pub(crate) fn join(alloc: Global, name: &str, pass: &str, word: u32) -> Result<Command, Fail> {
    Ok(Command::Join {
        name: bytes(alloc, name)?,
        pass: bytes(alloc, pass)?,
        word,
    })
}

pub(crate) fn mail(alloc: Global, faction: u32, pass: &str, text: &str) -> Result<Command, Fail> {
    Ok(Command::Mail {
        faction,
        pass: bytes(alloc, pass)?,
        text: bytes(alloc, text)?,
    })
}

pub(crate) fn close(alloc: Global, month: u32, pass: &str, words: &[u32]) -> Result<Command, Fail> {
    Ok(Command::Close {
        month,
        pass: bytes(alloc, pass)?,
        words: Sequence::from_slice(alloc, words)?,
    })
}

pub(crate) fn report(alloc: Global, faction: u32, pass: &str) -> Result<Command, Fail> {
    Ok(Command::Report {
        faction,
        pass: bytes(alloc, pass)?,
    })
}

pub(crate) fn found_service<S: Alter + Drop>(
    alloc: Global,
    conn: Connection<S>,
    world: &str,
) -> Result<Service<S>, Fail> {
    match found(alloc, conn, world, b"gm") {
        Ok(service) => Ok(service),
        Err(_) => Err(Fail::new("found")),
    }
}

pub(crate) fn found_in_memory(alloc: Global, world: &str) -> Result<Service<MemStore>, Fail> {
    found_service(alloc, Connection::open_in_memory(alloc)?, world)
}

pub(crate) fn opened<S: Alter + Drop>(
    alloc: Global,
    conn: Connection<S>,
) -> Result<Service<S>, Fail> {
    match open(alloc, conn) {
        Ok(service) => Ok(service),
        Err(_) => Err(Fail::new("open")),
    }
}

pub(crate) fn open_after_sql<S: Alter + Drop>(
    alloc: Global,
    conn: Connection<S>,
    rows: &str,
) -> Result<Service<S>, Fail> {
    let mut conn = conn;
    conn.change(rows)?;
    opened(alloc, conn)
}

/// An answer in words: its kind, the name of its refusal or fault, or its text.
pub(crate) fn answer_text(answer: &Answer) -> &str {
    match answer {
        Answer::Joined { .. } => "joined",
        Answer::Mailed { .. } => "mailed",
        Answer::MonthDone { .. } => "month done",
        Answer::Text(text) => text.as_str(),
        Answer::Refused(Refusal::BadName) => "bad name",
        Answer::Refused(Refusal::BadPassText) => "bad pass text",
        Answer::Refused(Refusal::NameTaken) => "name taken",
        Answer::Refused(Refusal::Full) => "full",
        Answer::Refused(Refusal::NoFaction) => "no faction",
        Answer::Refused(Refusal::WrongPass) => "wrong pass",
        Answer::Refused(Refusal::Gone) => "gone",
        Answer::Refused(Refusal::TooLong) => "too long",
        Answer::Refused(Refusal::NoHeader) => "no header",
        Answer::Refused(Refusal::BadHeader) => "bad header",
        Answer::Refused(Refusal::WrongFaction) => "wrong faction",
        Answer::Refused(Refusal::WrongMonth) => "wrong month",
        Answer::Refused(Refusal::MonthLimit) => "month limit",
        Answer::Refused(Refusal::WrongDice) => "wrong dice",
        Answer::Fault(Fault::Memory) => "memory",
        Answer::Fault(Fault::Store) => "store",
        Answer::Fault(Fault::Closed) => "closed",
    }
}

/// Why a campaign was not founded, opened or upgraded, in words.
pub(crate) fn cause_text(cause: &Cause) -> &'static str {
    match cause {
        Cause::World(_) => "world",
        Cause::BadPassText => "bad pass text",
        Cause::NotEmpty => "not empty",
        Cause::NotACampaign => "not a campaign",
        Cause::OldFormat => "old format",
        Cause::NotOld => "not old",
        Cause::Differs => "differs",
        Cause::Damaged(_) => "damaged",
        Cause::Store => "store",
        Cause::Memory => "memory",
    }
}
