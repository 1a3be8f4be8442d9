//! Accounts of upkeep: for each faction in each region, the money left, short, given and covered.
//! See docs/RULES.md, "Upkeep".
ghost use Rattle.std.specs.Prelude.{◌≡◌, OnOk};
ghost use Rattle.atl_shares.specs.Accounts.{account_at, with_account, with_if_short};

use crate::upkeep_sharing::UpkeepInput;
use atl_world::Numbered;
use std::alloc::{AllocError, Global};

/// The money that a faction's units in a region have left after their own upkeep and are short of,
/// added up, and how much of it was given and covered so far.
#[derive(Drop, Clone, Copy, PartialEq, Eq)]
pub(crate) struct Account {
    pub(crate) left: u128,
    pub(crate) short: u128,
    /// How much units with money left gave so far to others.
    pub(crate) given: u128,
    /// How much units that are short got so far from others.
    pub(crate) covered: u128,
}

/// The accounts by region, and then by faction.
pub(crate) type Accounts = Numbered<Numbered<Account>>;

/// The account of the faction of a unit (`input`) in the unit's region; all amounts are 0 where
/// there is none yet.
pub(crate) fn account_of(accounts: &Accounts, input: &UpkeepInput) -> Account
    ensures { result ≡ account_at accounts.now input.now.region input.now.faction }
{
    let found = accounts.get_under(input.region, input.faction).copied();
    found.unwrap_or(Account {
        left: 0,
        short: 0,
        given: 0,
        covered: 0,
    })
}

fn put_account(
    alloc: Global,
    accounts: &mut Accounts,
    input: &UpkeepInput,
    account: Account,
) -> Result<(), AllocError>
    ensures { OnOk result (accounts.new
        ≡ with_account accounts.old input.now.region input.now.faction account) }
{
    accounts.insert_under(alloc, input.region, input.faction, account)
}

/// Sets the account of the faction of a unit (`input`) in the unit's region to `account`, if by
/// this its units are short of money, and else nothing. After an AllocError the accounts are no
/// longer valid.
pub(crate) fn put_if_short(
    alloc: Global,
    accounts: &mut Accounts,
    input: &UpkeepInput,
    account: Account,
) -> Result<(), AllocError>
    ensures { OnOk result (accounts.new
        ≡ with_if_short accounts.old input.now.region input.now.faction account) }
{
    if account.short == 0 {
        return Ok(());
    }
    put_account(alloc, accounts, input, account)
}
