//! Makes the campaign in which calls are tried, and the commands. Two factions, Avalon and Bree,
//! have eleven units and a boat, and both have sent mail. The island (`ISLE`) and the rows of the
//! factions, units and boat (`MONTH_ROWS`) are in atl_test_worlds.
use atl_service::{Answer, Command, Service, found, open};
use atl_test_files::old_file;
use atl_test_worlds::ISLE;
use atl_test_worlds::month::{AVALON_MAILING, BREE_MAILING, MONTH_ROWS};
use atl_world::Sequence;
use sqlite::{Alter, Connection, MemStore};
use std::alloc::{AllocError, Global};

/// Bree's second mailing, which replaces its first one: eleven orders, and a faulty line.
const NEXT_OF_BREE: &str = "#ATLANTIS 2 pb
UNIT 8
LEAVE
ENTER 1
PROMOTE 8
DANCE
UNIT 9
NAME UNIT Sawyers
PRODUCE wood
UNIT 10
GUARD 1
FORM 1
STUDY carpentry
END
PRODUCE wood
QUIT 1
UNIT 11
TEACH 10 NEW 1
";

fn bytes(alloc: Global, text: &str) -> Result<Sequence<u8>, AllocError> {
    Sequence::from_slice(alloc, text.as_bytes())
}

fn mail(alloc: Global, faction: u32, pass: &str, text: &str) -> Result<Command, AllocError> {
    Ok(Command::Mail {
        faction,
        pass: bytes(alloc, pass)?,
        text: bytes(alloc, text)?,
    })
}

pub fn join(alloc: Global) -> Result<Command, AllocError> {
    Ok(Command::Join {
        name: bytes(alloc, "Cork")?,
        pass: bytes(alloc, "pc")?,
        word: 7,
    })
}

pub fn next_mail(alloc: Global) -> Result<Command, AllocError> {
    mail(alloc, 2, "pb", NEXT_OF_BREE)
}

pub fn close(alloc: Global) -> Result<Command, AllocError> {
    Ok(Command::Close {
        month: 1,
        pass: bytes(alloc, "gm")?,
        words: Sequence::from_slice(alloc, &[1, 2, 3, 4])?,
    })
}

pub fn report(alloc: Global) -> Result<Command, AllocError> {
    Ok(Command::Report {
        faction: 1,
        pass: bytes(alloc, "pw")?,
    })
}

pub fn all_commands(alloc: Global) -> Result<Vec<Command>, AllocError> {
    let mut commands = Vec::new(alloc);
    commands.push(join(alloc)?)?;
    commands.push(next_mail(alloc)?)?;
    commands.push(close(alloc)?)?;
    commands.push(report(alloc)?)?;
    Ok(commands)
}

/// The service of the island's campaign just founded; None if the founding is refused.
pub fn founded<S: Alter + Drop>(alloc: Global, conn: Connection<S>) -> Option<Service<S>> {
    match found(alloc, conn, ISLE, b"gm") {
        Ok(service) => Some(service),
        Err(_) => None,
    }
}

fn filled<S: Alter + Drop>(alloc: Global, conn: Connection<S>) -> Option<Service<S>> {
    let mut conn = founded(alloc, conn)?.end();
    conn.execute_batch(MONTH_ROWS).ok()?;
    match open(alloc, conn) {
        Ok(service) => Some(service),
        Err(_) => None,
    }
}

fn sends<S: Alter>(service: &mut Service<S>, mail: Result<Command, AllocError>) -> bool {
    match &mail {
        Ok(mail) => matches!(&service.run(mail), Answer::Mailed { .. }),
        Err(_) => false,
    }
}

/// The service of the island's campaign with the rows of `MONTH_ROWS` and the mail of both
/// factions; None if a step fails.
pub fn begun<S: Alter + Drop>(alloc: Global, conn: Connection<S>) -> Option<Service<S>> {
    let mut service = filled(alloc, conn)?;
    let are_kept = sends(&mut service, mail(alloc, 1, "pw", AVALON_MAILING))
        && sends(&mut service, mail(alloc, 2, "pb", BREE_MAILING));
    if are_kept { Some(service) } else { None }
}

/// A database of the first format with the rows of a service's campaign; None if a step fails.
pub fn old_of<S: Alter + Drop>(alloc: Global, service: Service<S>) -> Option<Connection<MemStore>> {
    let mut conn = Connection::open_in_memory(alloc).ok()?;
    old_file(&mut conn, ISLE, service.campaign()?).ok()?;
    Some(conn)
}
