//! Why no campaign is founded, opened or upgraded. See docs/FORMATS.md, "Tables".
ghost use Rattle.std.specs.Prelude.{◌≡◌};
ghost use Rattle.atl_service.specs.Found.{cause_of_world_fault, cause_of_creation_fault};
ghost use Rattle.atl_service.specs.Opened.{cause_of_loading_fault};
ghost use Rattle.atl_service.specs.Upgraded.{cause_of_upgrade_fault};

use atl_commands::Refusal;
use atl_state::Rule;
use atl_store::{CreateFault, StoreFault, UpgradeFault};
use atl_tables::WorldFault;
use sqlite::{Alter, Connection};
use std::alloc::AllocError;
use std::error::Error;
use std::fmt;

/// Why no campaign is founded, opened or upgraded: the first cause that applies, or Memory at any
/// point. `found` gives World, BadPassText, NotEmpty, Store and Memory; `open` NotACampaign,
/// OldFormat, Damaged, Store and Memory; `upgrade` NotACampaign, NotOld, Damaged, World, Differs,
/// Store and Memory. See docs/FORMATS.md, "Tables".
#[derive(Drop, Debug)]
pub enum Cause {
    /// The world text (for an upgrade the new one) has this fault, which is not Memory.
    World(WorldFault),
    /// The moderator's pass text breaks the rule of pass texts.
    BadPassText,
    /// The database has a table `campaign`.
    NotEmpty,
    /// The database has no table `campaign`, or the table lacks a column.
    NotACampaign,
    /// The table `campaign` has one row, whose format is the first: the file must be upgraded.
    OldFormat,
    /// The table `campaign` has one row, whose format is the second: the file was upgraded
    /// before, or founded so.
    NotOld,
    /// This is the first rule of their format that the rows of the tables break.
    Damaged(Rule),
    /// The new world differs from the old one in more than its markets.
    Differs,
    /// The database failed for another cause than memory, or the connection is in a transaction.
    /// Founding gives it also if there is another table, an index or a view; opening if the tables
    /// are not made as those of a campaign; and an upgrade if they are not exactly those of the
    /// first format.
    Store,
    /// Memory ran out.
    Memory,
}

/// Prints a cause as the program does: `world: 8 NoLand`, `refused: 2 BadPassText`,
/// `fault: Damaged 11`, `fault: OldFormat` and so on.
impl fmt::Display for Cause {
    fn fmt<W: fmt::Write>(&self, f: &mut fmt::Formatter<W>) -> fmt::Result {
        match self {
            Cause::World(fault) => write!(f, "world: {fault}"),
            Cause::BadPassText => write!(f, "refused: {}", Refusal::BadPassText),
            Cause::Damaged(rule) => write!(f, "fault: Damaged {}", rule.number()),
            cause => write!(f, "fault: {cause:?}"),
        }
    }
}

impl Error for Cause {}

/// A fault of a world text: Memory becomes Memory, and each other one `World` with the fault.
impl From<WorldFault> for Cause {
    ghost from_gives = { λ fault cause. cause ≡ cause_of_world_fault fault };

    fn from(fault: WorldFault) -> Cause {
        match fault {
            WorldFault::Memory => Cause::Memory,
            fault => Cause::World(fault),
        }
    }
}

/// A fault of creating the tables becomes the cause of the same name.
impl From<CreateFault> for Cause {
    ghost from_gives = { λ fault cause. cause ≡ cause_of_creation_fault fault };

    fn from(fault: CreateFault) -> Cause {
        match fault {
            CreateFault::NotEmpty => Cause::NotEmpty,
            CreateFault::Store => Cause::Store,
            CreateFault::Memory => Cause::Memory,
        }
    }
}

/// A fault of loading a campaign becomes the cause of the same name.
impl From<StoreFault> for Cause {
    ghost from_gives = { λ fault cause. cause ≡ cause_of_loading_fault fault };

    fn from(fault: StoreFault) -> Cause {
        match fault {
            StoreFault::NotACampaign => Cause::NotACampaign,
            StoreFault::OldFormat => Cause::OldFormat,
            StoreFault::Damaged(rule) => Cause::Damaged(rule),
            StoreFault::Store => Cause::Store,
            StoreFault::Memory => Cause::Memory,
        }
    }
}

/// A fault of the store's upgrade becomes the cause of the same name.
impl From<UpgradeFault> for Cause {
    ghost from_gives = { λ fault cause. cause ≡ cause_of_upgrade_fault fault };

    fn from(fault: UpgradeFault) -> Cause {
        match fault {
            UpgradeFault::NotACampaign => Cause::NotACampaign,
            UpgradeFault::NotOld => Cause::NotOld,
            UpgradeFault::Damaged(rule) => Cause::Damaged(rule),
            UpgradeFault::World(fault) => Cause::World(fault),
            UpgradeFault::Differs => Cause::Differs,
            UpgradeFault::Store => Cause::Store,
            UpgradeFault::Memory => Cause::Memory,
        }
    }
}

impl From<AllocError> for Cause {
    ghost use Rattle.atl_service.specs.declared.cause.Cause.TheVariants.{Memory};

    ghost from_gives = { λ _ cause. cause ≡ Memory };

    fn from(_e: AllocError) -> Cause {
        Cause::Memory
    }
}

/// What a refused `found`, `open` or `upgrade` returns: the cause and the connection. On a clean
/// disk its tables are as they were, while it is open.
#[derive(Drop)]
pub struct Refused<S: Alter> {
    pub why: Cause,
    /// The connection that the call was given.
    pub conn: Connection<S>,
}
