//! The failures of the program, and their lines on standard error. See docs/FORMATS.md, "The
//! program".
use atl_service::{Cause, Refusal};
use atl_tables::WorldFault;
use sqlite::{Error, ErrorCode};
use std::alloc::{AllocError, AllocFailed};
use std::io::ErrorKind;
use std::process::ExitCode;
use std::{fmt, io};

/// Why the program did not do what was asked.
pub enum Failure {
    /// The parser refused the command line, or the command line asks for help.
    CommandLine(clap::Error),
    /// The command line names no subcommand of the list, though its parser requires one.
    NoSubcommand,
    /// An option has no value, though the parser of the command line requires one.
    NoValue,
    /// A file, or standard input, can't be read, or isn't UTF-8 though it has to be a text.
    File,
    /// The world text has this fault.
    World(WorldFault),
    /// The command is refused for this reason.
    Refused(Refusal),
    /// The database to found a campaign in already has one.
    NotEmpty,
    /// The file is missing or empty, or its database has no campaign.
    NotACampaign,
    /// The campaign is in the first format, so the file must be upgraded.
    OldFormat,
    /// The campaign to upgrade is in the second format already.
    NotOld,
    /// The rows of the campaign break the rule of this number.
    Damaged(u8),
    /// The new world differs from the old one in more than its markets.
    Differs,
    /// The database can't be opened, or failed, for another cause than memory.
    Store,
    /// Memory ran out.
    Memory,
    /// The network failed: the port can't be bound, or no connection can be accepted.
    Net,
    /// Standard output can't be written.
    Output,
}

/// Drops what a failure holds: the parser's error or the fault of a world. As one function, it is
/// proved once and not at each place that drops a failure.
impl Drop for Failure {
    fn drop(self) {
        match self {
            Failure::CommandLine(_) => {}
            Failure::NoSubcommand => {}
            Failure::NoValue => {}
            Failure::File => {}
            Failure::World(_) => {}
            Failure::Refused(_) => {}
            Failure::NotEmpty => {}
            Failure::NotACampaign => {}
            Failure::OldFormat => {}
            Failure::NotOld => {}
            Failure::Damaged(_) => {}
            Failure::Differs => {}
            Failure::Store => {}
            Failure::Memory => {}
            Failure::Net => {}
            Failure::Output => {}
        }
    }
}

impl From<AllocError> for Failure {
    fn from(_e: AllocError) -> Failure {
        Failure::Memory
    }
}

impl<T: Drop> From<AllocFailed<T>> for Failure {
    fn from(_e: AllocFailed<T>) -> Failure {
        Failure::Memory
    }
}

/// An error of the database: Memory if it ran out of memory, else Store.
impl From<Error> for Failure {
    fn from(error: Error) -> Failure {
        match error {
            Error::SqliteFailure(ErrorCode::OutOfMemory) => Failure::Memory,
            _ => Failure::Store,
        }
    }
}

/// Why no campaign was founded, opened or upgraded: the failure of the same name; BadPassText is a
/// refusal.
impl From<Cause> for Failure {
    fn from(cause: Cause) -> Failure {
        match cause {
            Cause::World(fault) => Failure::World(fault),
            Cause::BadPassText => Failure::Refused(Refusal::BadPassText),
            Cause::NotEmpty => Failure::NotEmpty,
            Cause::NotACampaign => Failure::NotACampaign,
            Cause::OldFormat => Failure::OldFormat,
            Cause::NotOld => Failure::NotOld,
            Cause::Damaged(rule) => Failure::Damaged(rule.number()),
            Cause::Differs => Failure::Differs,
            Cause::Store => Failure::Store,
            Cause::Memory => Failure::Memory,
        }
    }
}

/// A text that is printed on one line: each control character in it as its escape, all else as it
/// is.
#[derive(Clone, Copy)]
pub struct OneLine<'a>(pub &'a str);

impl<'a> fmt::Display for OneLine<'a> {
    fn fmt<W: fmt::Write>(&self, f: &mut fmt::Formatter<W>) -> fmt::Result {
        for letter in self.0.chars() {
            if letter.is_control() {
                write!(f, "{}", letter.escape_default())?;
            } else {
                f.write_char(letter)?;
            }
        }
        Ok(())
    }
}

/// Only the fault Memory has no number.
fn print_world_fault<R: Eprint>(rt: &R, fault: &WorldFault) -> io::Result<()> {
    let Some(number) = fault.number() else {
        return eprintln!(rt; "fault: Memory");
    };
    let name = fault.name();
    match fault.path() {
        Some(path) => {
            let path = OneLine(path.as_str());
            eprintln!(rt; "world: {number} {name} {path}")
        }
        None => eprintln!(rt; "world: {number} {name}"),
    }
}

impl Failure {
    /// The failure for an error of the system: Memory if the system ran out of memory, else
    /// `other`.
    pub fn of_system(error: io::Error, other: Failure) -> Failure {
        match error.kind() {
            ErrorKind::OutOfMemory => Failure::Memory,
            _ => other,
        }
    }

    /// Prints the failure on standard error and returns the status: 2 for a command line that is
    /// bad or asks for help, else 1. Such a command line is answered in the words of its parser;
    /// the failure Output isn't printed.
    pub fn report<R: Eprint>(self, rt: &R) -> ExitCode {
        let _ = match &self {
            Failure::CommandLine(error) => eprint!(rt; "{error}"),
            Failure::NoSubcommand => eprintln!(rt; "error: no subcommand was asked for"),
            Failure::NoValue => eprintln!(rt; "error: an option has no value"),
            Failure::File => eprintln!(rt; "file: cannot read"),
            Failure::World(fault) => print_world_fault(rt, fault),
            Failure::Refused(refusal) => {
                let (number, name) = (refusal.number(), refusal.name());
                eprintln!(rt; "refused: {number} {name}")
            }
            Failure::NotEmpty => eprintln!(rt; "fault: NotEmpty"),
            Failure::NotACampaign => eprintln!(rt; "fault: NotACampaign"),
            Failure::OldFormat => eprintln!(rt; "fault: OldFormat"),
            Failure::NotOld => eprintln!(rt; "fault: NotOld"),
            Failure::Damaged(number) => eprintln!(rt; "fault: Damaged {number}"),
            Failure::Differs => eprintln!(rt; "fault: Differs"),
            Failure::Store => eprintln!(rt; "fault: Store"),
            Failure::Memory => eprintln!(rt; "fault: Memory"),
            Failure::Net => eprintln!(rt; "fault: Net"),
            Failure::Output => Ok(()),
        };
        match self {
            Failure::CommandLine(_) | Failure::NoSubcommand | Failure::NoValue => {
                ExitCode::from(2)
            }
            _ => ExitCode::FAILURE,
        }
    }
}
