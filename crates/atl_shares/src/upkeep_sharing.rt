//! How the units of one faction in one region share their upkeep: what each pays and how many of
//! its men starve. Where a call takes the maintenance, what one man costs in a month, it is at most
//! 1,000, and units have at most 999,999 men and 999,999,999 money. See docs/RULES.md, "Upkeep".
ghost use Rattle.std.specs.Prelude.{◌≡◌, ◌≤◌, [], ℕ, All, IfOk, OnOk};
ghost use Rattle.atl_world.specs.Limits.{most_per_head};
ghost use Rattle.atl_shares.specs.Accounts.{IsOpen, account_after, account_at, account_of, opened, upkeep_result_by};
ghost use Rattle.atl_shares.specs.UpkeepSharing.{AreInOrder, EachCanSpare, IsUpkeepInput, left_of, short_of, upkeep_results_of};

use crate::accounts::{Account, Accounts, account_of, put_if_short};
use atl_world::Numbered;
use std::alloc::{AllocError, Global};

/// What upkeep reads of a unit: its number, its region, its faction, its men and its money.
#[derive(Drop, Clone, Copy, PartialEq, Eq)]
pub struct UpkeepInput {
    pub unit: u32,
    pub region: u32,
    pub faction: u32,
    pub men: u32,
    pub money: u32,
}

/// What upkeep takes from a unit of a faction: the money that it pays, for itself and for others,
/// and how many of its men starve.
#[derive(Drop, Clone, Copy, PartialEq, Eq)]
pub struct UpkeepResult {
    pub unit: u32,
    pub faction: u32,
    pub paid: u32,
    pub starved: u32,
}

/// The money that a unit has left, and what it is short of; one of the two is 0.
fn left_and_short(maintenance: u32, input: &UpkeepInput) -> (u64, u64)
    requires most { maintenance ≤ most_per_head }
    requires input { IsUpkeepInput input.now }
    ensures { result ≡ (left_of maintenance input.now, short_of maintenance input.now) }
{
    let due = u64::from(maintenance) * u64::from(input.men);
    let money = u64::from(input.money);
    (money.saturating_sub(due), due.saturating_sub(money))
}

/// The accounts with what the units are short of, and nothing left, given or covered.
fn short_accounts(
    alloc: Global,
    maintenance: u32,
    inputs: &[UpkeepInput],
) -> Result<Accounts, AllocError>
    requires most { maintenance ≤ most_per_head }
    requires inputs { All IsUpkeepInput inputs.now }
    ensures { IfOk result (λ accounts. (region faction : ℕ)
        → account_at accounts region faction
        ≡ opened maintenance inputs.now [] region faction) }
{
    let mut accounts = Numbered::new(alloc);
    for input in inputs {
        let (_, short) = left_and_short(maintenance, input);
        let mut account = account_of(&accounts, input);
        account.short += u128::from(short);
        put_if_short(alloc, &mut accounts, input, account)?;
    }
    Ok(accounts)
}

/// Adds what the units have left to the accounts of `short_accounts`, where units are short.
fn add_left(
    alloc: Global,
    maintenance: u32,
    inputs: &[UpkeepInput],
    accounts: &mut Accounts,
) -> Result<(), AllocError>
    requires most { maintenance ≤ most_per_head }
    requires inputs { All IsUpkeepInput inputs.now }
    requires accounts { (region faction : ℕ)
        → account_at accounts.old region faction
        ≡ opened maintenance inputs.now [] region faction }
    ensures { OnOk result ((region faction : ℕ)
        → account_at accounts.new region faction
        ≡ opened maintenance inputs.now inputs.now region faction) }
{
    for input in inputs {
        let (left, _) = left_and_short(maintenance, input);
        let mut account = account_of(accounts, input);
        account.left += u128::from(left);
        put_if_short(alloc, accounts, input, account)?;
    }
    Ok(())
}

/// The accounts before the first unit's turn. There is none where no unit is short, so what these
/// units have left isn't added up.
fn open_accounts(
    alloc: Global,
    maintenance: u32,
    inputs: &[UpkeepInput],
) -> Result<Accounts, AllocError>
    requires most { maintenance ≤ most_per_head }
    requires inputs { All IsUpkeepInput inputs.now }
    ensures { IfOk result (λ accounts. (region faction : ℕ)
        → account_at accounts region faction
        ≡ account_of maintenance inputs.now [] region faction) }
{
    let mut accounts = short_accounts(alloc, maintenance, inputs)?;
    add_left(alloc, maintenance, inputs, &mut accounts)?;
    Ok(accounts)
}

/// What upkeep takes from a unit in its turn. It changes `account`, of the unit's faction in its
/// region, which has given and covered at most `to_give`. The maintenance is at least 1.
fn payment_of(maintenance: u32, account: &mut Account, input: &UpkeepInput) -> UpkeepResult
    requires some { 1 ≤ maintenance }
    requires most { maintenance ≤ most_per_head }
    requires input { IsUpkeepInput input.now }
    requires account { IsOpen account.old }
    ensures upkeep_result { result ≡ upkeep_result_by maintenance account.old input.now }
    ensures account { account.new ≡ account_after maintenance account.old input.now }
{
    let (left, short) = left_and_short(maintenance, input);
    let amount = account.left.min(account.short);
    let given = u128::from(left).min(amount - account.given);
    let covered = u128::from(short).min(amount - account.covered);
    account.given += given;
    account.covered += covered;
    let own = u64::from(input.money) - left;
    let maintenance = u64::from(maintenance);
    let short = short - covered as u64;
    UpkeepResult {
        unit: input.unit,
        faction: input.faction,
        paid: (own + given as u64) as u32,
        starved: ((short + (maintenance - 1)) / maintenance) as u32,
    }
}

/// What upkeep takes from each unit of `inputs`, which are in the order of their numbers, each
/// once. The units of one faction in one region pay for each other. The maintenance is at least 1.
/// AllocError without memory. See docs/RULES.md, "Upkeep".
pub fn upkeep_payments(
    alloc: Global,
    maintenance: u32,
    inputs: &[UpkeepInput],
) -> Result<Vec<UpkeepResult>, AllocError>
    requires some { 1 ≤ maintenance }
    requires most { maintenance ≤ most_per_head }
    requires inputs { All IsUpkeepInput inputs.now }
    requires order { AreInOrder inputs.now }
    ensures definition { IfOk result
        (λ list. list.items ≡ upkeep_results_of maintenance inputs.now) }
{
    let mut accounts = open_accounts(alloc, maintenance, inputs)?;
    let mut list = Vec::new(alloc);
    for input in inputs {
        let mut account = account_of(&accounts, input);
        let upkeep_result = payment_of(maintenance, &mut account, input);
        put_if_short(alloc, &mut accounts, input, account)?;
        list.push(upkeep_result)?;
    }
    Ok(list)
}

/// The law that a unit pays no more money in upkeep than it has, and no more of its men starve than
/// it has. Does nothing.
pub fn each_unit_can_spare()
    ensures { EachCanSpare }
{}
