//! The commands, their answers, and refusals and faults. See docs/RULES.md, "Refusals and faults".
ghost use Rattle.std.specs.Prelude.{◌≡◌};
ghost use Rattle.atl_commands.specs.Numbers.{number_of, refusal_name, fault_name};
ghost use Rattle.atl_commands.specs.Answering.{fault_of_write};

use atl_keeping::WriteFault;
use atl_orders::FaultyLine;
use atl_world::{Sequence, Text, name_of};
use std::error::Error;
use std::fmt;

/// A command to a campaign: join, mail, close or report. Names, pass texts and mailings are any
/// bytes. Each command has its rules in a section of docs/RULES.md.
pub enum Command {
    /// A faction joins. See docs/RULES.md, "Joining".
    Join {
        name: Sequence<u8>,
        /// The pass text that the faction's later commands must give.
        pass: Sequence<u8>,
        /// A word of the dice, which picks the region where the faction begins.
        word: u32,
    },
    /// A faction sends its orders for the month to come. See docs/RULES.md, "Mail".
    Mail {
        faction: u32,
        pass: Sequence<u8>,
        /// The mailing, which is kept byte for byte.
        text: Sequence<u8>,
    },
    /// The moderator closes a month. See docs/RULES.md, "Closing a month".
    Close {
        /// The month's number: one more than that of the month last closed.
        month: u32,
        pass: Sequence<u8>,
        /// A word of the dice for each region, in the order of the regions' numbers.
        words: Sequence<u32>,
    },
    /// A faction asks for its stored report. See docs/RULES.md, "Reports".
    Report {
        faction: u32,
        pass: Sequence<u8>,
    },
}

impl Drop for Command {
    fn drop(self) {
        match self {
            Command::Join {
                name: _,
                pass: _,
                word: _,
            } => {}
            Command::Mail {
                faction: _,
                pass: _,
                text: _,
            } => {}
            Command::Close {
                month: _,
                pass: _,
                words: _,
            } => {}
            Command::Report {
                faction: _,
                pass: _,
            } => {}
        }
    }
}

/// Why a command is refused. A refused command changes nothing. See docs/RULES.md, "Refusals and
/// faults"; which refusal comes first is said with each command there.
#[derive(Drop, Clone, Copy, Debug, PartialEq, Eq)]
pub enum Refusal {
    /// The name breaks the rule of names.
    BadName = 1,
    /// The pass text breaks the rule of pass texts.
    BadPassText = 2,
    /// A faction has joined under this name before.
    NameTaken = 3,
    /// A limit is reached: no further faction, or no further unit, is possible.
    Full = 4,
    /// No faction has this number.
    NoFaction = 5,
    /// The pass text is not that of the faction, or of the moderator.
    WrongPass = 6,
    /// The faction has no unit left.
    Gone = 7,
    /// The mailing has more than 65,536 bytes.
    TooLong = 8,
    /// No line of the mailing begins with `#ATLANTIS`.
    NoHeader = 9,
    /// The header line of the mailing names no faction from 1 to 9,999.
    BadHeader = 10,
    /// The header names another faction.
    WrongFaction = 11,
    /// The month isn't the one after the month last closed.
    WrongMonth = 12,
    /// Month 9,999 was closed, and no month can be closed after it.
    MonthLimit = 13,
    /// The count of words isn't that of the world's regions.
    WrongDice = 14,
}

impl Refusal {
    /// The refusal's number, from 1 to 14, as answers have it. See docs/FORMATS.md, "Refusals".
    pub fn number(self) -> u8
        ensures { result ≡ number_of self }
    {
        self as u8
    }

    /// The refusal's name, as answers have it. See docs/FORMATS.md, "Refusals".
    pub fn name(self) -> &'static str
        ensures { result.now ≡ refusal_name self }
    {
        name_of!(
            self, Refusal: BadName BadPassText NameTaken Full NoFaction WrongPass Gone TooLong
            NoHeader BadHeader WrongFaction WrongMonth MonthLimit WrongDice
        )
    }
}

/// Prints a refusal's number and name, as `12 WrongMonth`.
impl fmt::Display for Refusal {
    fn fmt<W: fmt::Write>(&self, f: &mut fmt::Formatter<W>) -> fmt::Result {
        write!(f, "{} {}", self.number(), self.name())
    }
}

impl Error for Refusal {}

/// Why a command could not be carried out. If the disk is clean, the tables are as before while the
/// connection is open, and a crash leaves them as before or after the command. See docs/RULES.md,
/// "Refusals and faults".
#[derive(Drop, Clone, Copy, Debug, PartialEq, Eq)]
pub enum Fault {
    /// Out of memory. The service is closed from then on.
    Memory,
    /// The database failed for another cause than memory. The service is closed from then on.
    Store,
    /// The service was closed by an earlier fault. Nothing changes.
    Closed,
}

impl Fault {
    /// The fault's name, as answers have it. See docs/FORMATS.md, "Refusals".
    pub fn name(self) -> &'static str
        ensures { result.now ≡ fault_name self }
    {
        match self {
            Fault::Memory => "Memory",
            Fault::Store => "Store",
            Fault::Closed => "Closed",
        }
    }
}

/// Prints a fault's name, as `Store`.
impl fmt::Display for Fault {
    fn fmt<W: fmt::Write>(&self, f: &mut fmt::Formatter<W>) -> fmt::Result {
        write!(f, "{}", self.name())
    }
}

impl Error for Fault {}

/// A fault of a write to the store becomes the fault of the same name.
impl From<WriteFault> for Fault {
    ghost from_gives = { λ fault returned. returned ≡ fault_of_write fault };

    fn from(fault: WriteFault) -> Fault {
        match fault {
            WriteFault::Memory => Fault::Memory,
            WriteFault::Store => Fault::Store,
        }
    }
}

/// The answer to a command. Joined, Mailed and MonthDone are given once what the command changed is
/// written. See docs/RULES.md, "Joining", "Mail", "Closing a month", "Reports" and "Refusals and
/// faults".
pub enum Answer {
    /// A faction joined, and its first report is stored.
    Joined {
        faction: u32,
        unit: u32,
    },
    /// A mailing is stored for the next month to be closed, in place of an older one.
    Mailed {
        /// The number of orders in the mailing; FORM counts, UNIT and END don't.
        orders: usize,
        faults: Sequence<FaultyLine>,
    },
    /// A month was closed; the mail is removed, and the reports are stored.
    MonthDone {
        month: u32,
    },
    /// The stored report of the faction, empty if none is stored; nothing changes.
    Text(Text),
    /// The command was refused for this reason, and nothing changes.
    Refused(Refusal),
    /// The command could not be carried out. The service is closed from then on.
    Fault(Fault),
}

impl Drop for Answer {
    fn drop(self) {
        match self {
            Answer::Joined {
                faction: _,
                unit: _,
            } => {}
            Answer::Mailed {
                orders: _,
                faults: _,
            } => {}
            Answer::MonthDone { month: _ } => {}
            Answer::Text(_) => {}
            Answer::Refused(_) => {}
            Answer::Fault(_) => {}
        }
    }
}
