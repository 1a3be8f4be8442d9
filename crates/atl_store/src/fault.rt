//! The faults of the store, and which of them an error becomes. See docs/FORMATS.md, "Tables".
ghost use Rattle.std.specs.Prelude.{◌≡◌};
ghost use Rattle.atl_store.specs.Faults.{store_fault, reopening_fault, load_fault, fault_of_check, second_format_fault, upgrade_fault, first_format_fault, new_world_fault, fault_number, upgrade_fault_number};

pub use atl_keeping::fault::{CreateFault, WriteFault};
pub use atl_sql::fault::ReadFault;
use atl_sql::fault::by_cause;
use atl_state::{CheckFault, Rule};
use atl_tables::WorldFault;
use sqlite::Error;
use sqlite_trees::error::StoreError;
use std::alloc::AllocError;
use std::fmt;

/// Why no campaign is loaded, or no database is opened again. Nothing is changed.
#[derive(Drop, Clone, Copy, Debug, PartialEq, Eq)]
pub enum StoreFault {
    /// The database refuses for another cause than memory, is in a transaction, or has tables that
    /// are not made as those of a campaign.
    Store,
    /// The rows of the tables break this rule, and none before it.
    Damaged(Rule),
    /// The campaign row can't be selected, as when the table `campaign` or a column is missing.
    NotACampaign,
    /// `campaign` has one row, whose format is the first: the file is to be upgraded.
    OldFormat,
    /// Memory ran out.
    Memory,
}

/// Why no campaign is loaded in one of the two formats. Nothing is changed.
#[derive(Drop, Clone, Copy, Debug, PartialEq, Eq)]
pub enum LoadFault {
    /// The database refuses for another cause than memory, is in a transaction, or has tables that
    /// are not made as those of the format.
    Store,
    /// The rows of the tables break this rule, and none before it.
    Damaged(Rule),
    /// The campaign row can't be selected, as when the table `campaign` or a column is missing.
    NotACampaign,
    /// `campaign` has one row, whose format is the other one.
    OtherFormat,
    /// Memory ran out.
    Memory,
}

/// Why no file is upgraded. While the connection is open the tables are as they were; a crash
/// leaves them so, or upgraded. See docs/FORMATS.md, "Tables".
#[derive(Drop, Debug)]
pub enum UpgradeFault {
    /// The database refuses for another cause than memory, is in a transaction, or has other tables
    /// or indexes than those of the first format.
    Store,
    /// The rows of the tables break this rule of the first format, and none before it.
    Damaged(Rule),
    /// The campaign row can't be selected, as when the table `campaign` or a column is missing.
    NotACampaign,
    /// `campaign` has one row, whose format is the second.
    NotOld,
    /// The new world text has this fault, which is not Memory.
    World(WorldFault),
    /// The new world differs from the old one in more than its markets.
    Differs,
    /// Memory ran out.
    Memory,
}

/// Shows the name of the fault; of `Damaged` the rule's number, too, as `Damaged 11`.
impl fmt::Display for StoreFault {
    fn fmt<W: fmt::Write>(&self, f: &mut fmt::Formatter<W>) -> fmt::Result {
        match self {
            StoreFault::Damaged(rule) => write!(f, "Damaged {}", rule.number()),
            fault => write!(f, "{fault:?}"),
        }
    }
}

impl std::error::Error for StoreFault {}

/// Shows the fault's name; of `Damaged` also the rule's number, as `Damaged 11`; of `World` also
/// the fault of the new world text, as `World: 2 Missing rules.growth`.
impl fmt::Display for UpgradeFault {
    fn fmt<W: fmt::Write>(&self, f: &mut fmt::Formatter<W>) -> fmt::Result {
        match self {
            UpgradeFault::Damaged(rule) => write!(f, "Damaged {}", rule.number()),
            UpgradeFault::World(fault) => write!(f, "World: {fault}"),
            fault => write!(f, "{fault:?}"),
        }
    }
}

impl std::error::Error for UpgradeFault {}

/// An error of the database becomes Memory for lack of memory, else Store.
impl From<Error> for StoreFault {
    ghost from_gives = { λ error fault. fault ≡ store_fault error };

    fn from(error: Error) -> StoreFault {
        by_cause(error, StoreFault::Memory, StoreFault::Store)
    }
}

impl From<Error> for LoadFault {
    ghost from_gives = { λ error fault. fault ≡ load_fault error };

    fn from(error: Error) -> LoadFault {
        by_cause(error, LoadFault::Memory, LoadFault::Store)
    }
}

impl From<Error> for UpgradeFault {
    ghost from_gives = { λ error fault. fault ≡ upgrade_fault error };

    fn from(error: Error) -> UpgradeFault {
        by_cause(error, UpgradeFault::Memory, UpgradeFault::Store)
    }
}

impl From<AllocError> for LoadFault {
    ghost use Rattle.atl_store.specs.declared.fault.LoadFault.TheVariants.{Memory};

    ghost from_gives = { λ _ fault. fault ≡ Memory };

    fn from(_e: AllocError) -> LoadFault {
        LoadFault::Memory
    }
}

impl From<AllocError> for UpgradeFault {
    ghost use Rattle.atl_store.specs.declared.fault.UpgradeFault.TheVariants.{Memory};

    ghost from_gives = { λ _ fault. fault ≡ Memory };

    fn from(_e: AllocError) -> UpgradeFault {
        UpgradeFault::Memory
    }
}

/// An error of opening the file again becomes Memory for lack of memory, else Store.
impl From<StoreError> for StoreFault {
    ghost from_gives = { λ error fault. fault ≡ reopening_fault error };

    fn from(error: StoreError) -> StoreFault {
        match error {
            StoreError::OutOfMemory => StoreFault::Memory,
            _ => StoreFault::Store,
        }
    }
}

/// A fault of loading in the second format keeps its name, but OtherFormat becomes OldFormat.
impl From<LoadFault> for StoreFault {
    ghost from_gives = { λ fault reports_error. reports_error ≡ second_format_fault fault };

    fn from(fault: LoadFault) -> StoreFault {
        match fault {
            LoadFault::Store => StoreFault::Store,
            LoadFault::Damaged(rule) => StoreFault::Damaged(rule),
            LoadFault::NotACampaign => StoreFault::NotACampaign,
            LoadFault::OtherFormat => StoreFault::OldFormat,
            LoadFault::Memory => StoreFault::Memory,
        }
    }
}

/// A fault of the check of the rows keeps its name: Damaged, with its rule, or Memory.
impl From<CheckFault> for LoadFault {
    ghost from_gives = { λ fault reports_error. reports_error ≡ fault_of_check fault };

    fn from(fault: CheckFault) -> LoadFault {
        match fault {
            CheckFault::Damaged(rule) => LoadFault::Damaged(rule),
            CheckFault::Memory => LoadFault::Memory,
        }
    }
}

/// A fault of loading in the first format keeps its name, but OtherFormat becomes NotOld.
impl From<LoadFault> for UpgradeFault {
    ghost from_gives = { λ fault reports_error. reports_error ≡ first_format_fault fault };

    fn from(fault: LoadFault) -> UpgradeFault {
        match fault {
            LoadFault::Store => UpgradeFault::Store,
            LoadFault::Damaged(rule) => UpgradeFault::Damaged(rule),
            LoadFault::NotACampaign => UpgradeFault::NotACampaign,
            LoadFault::OtherFormat => UpgradeFault::NotOld,
            LoadFault::Memory => UpgradeFault::Memory,
        }
    }
}

/// A fault of the new world text becomes Memory if memory ran out, else World with this fault.
impl From<WorldFault> for UpgradeFault {
    ghost from_gives = { λ fault reports_error. reports_error ≡ new_world_fault fault };

    fn from(fault: WorldFault) -> UpgradeFault {
        match fault {
            WorldFault::Memory => UpgradeFault::Memory,
            fault => UpgradeFault::World(fault),
        }
    }
}

/// Numbers the faults of `load`; callers know them by these numbers.
impl StoreFault {
    /// The fault's number, from 1; `Memory` has none.
    pub fn number(self) -> Option<u8>
        ensures { result ≡ fault_number self }
    {
        match self {
            StoreFault::Store => Some(1),
            StoreFault::Damaged(_) => Some(2),
            StoreFault::NotACampaign => Some(3),
            StoreFault::OldFormat => Some(4),
            StoreFault::Memory => None,
        }
    }
}

impl UpgradeFault {
    /// The fault's number, from 1; `Memory` has none.
    pub fn number(&self) -> Option<u8>
        ensures { result ≡ upgrade_fault_number self.now }
    {
        match self {
            UpgradeFault::Store => Some(1),
            UpgradeFault::Damaged(_) => Some(2),
            UpgradeFault::NotACampaign => Some(3),
            UpgradeFault::NotOld => Some(4),
            UpgradeFault::World(_) => Some(5),
            UpgradeFault::Differs => Some(6),
            UpgradeFault::Memory => None,
        }
    }
}
