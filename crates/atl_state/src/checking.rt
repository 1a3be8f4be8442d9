//! Checks the rows of a campaign by the rules of the tables. See docs/FORMATS.md, "Rules of the
//! tables". A call as `keeps_known` tests the one rule that it is named after.
ghost use Rattle.std.specs.Prelude.{◌≡◌, IsTrue, ◌↔◌};
ghost use Rattle.std.specs.List.{list_all};
ghost use Rattle.atl_world.specs.Worlds.{IsWorld};
ghost use Rattle.atl_world.specs.declared.format.Format.TheVariants.{Second};
ghost use Rattle.atl_state.specs.declared.checking.Rule.TheVariants as rule;
ghost use Rattle.atl_state.specs.Checking.{rule_number, KeepsRule, KeepsRulesBelow, ChecksBelow, Checks, GivesBack};
ghost use Rattle.atl_campaign.specs.FromRows.{campaign_of};
ghost use Rattle.atl_campaign.specs.Good.{AreKnown, HasValidMail, AreReported};
ghost use Rattle.atl_records.specs.Limits.{entries_in};
ghost use Rattle.atl_rows.specs.declared.parts.Parts.{Parts};
ghost use Rattle.atl_campaign.specs.RowRules.{is_one_campaign_row, are_of_format, is_of_unit, is_of_market, is_booked};
ghost use Rattle.atl_campaign.specs.Taking.{without_moved};

use crate::row_rules::{
    are_of_format, are_of_markets, is_one_campaign_row, rows_in_range, rows_named,
};
use crate::rules::{
    are_afloat, are_days, are_gone_iff_unitless, are_guarded, are_known, are_mailings,
    are_numbered, are_owned, are_reported,
};
use atl_balances::are_balanced;
use atl_campaign::parts::{Parts, StoredBooks};
use atl_campaign::{Campaign, as_u32, assemble};
use atl_records::{ENTRY_COUNT, FIRST_ENTRY_COUNT, FIRST_ITEM};
use atl_world::{Format, World};
use std::alloc::Global;
use std::error::Error;
use std::fmt;

/// A rule of the tables, by its number. Each is checked only on rows that keep the rules before it.
/// See docs/FORMATS.md, "Rules of the tables".
#[derive(Drop, Clone, Copy, Debug, PartialEq, Eq)]
pub enum Rule {
    /// There is one campaign row, with the id 1 and the format that is asked for. In the first
    /// format there are no rows of the table `market`. `check` doesn't judge the world text.
    OneRow = 1,
    /// Keys differ, each number is in its range, and there are not too many rows.
    Ranges = 2,
    /// Names and pass texts keep their rules, and no two factions joined under the same name.
    Names = 3,
    /// The regions are the world's, and all that a row names by its number exists, markets too.
    /// What rows of `books` name is of rule 11. A unit's structure is in the unit's region.
    Known = 4,
    /// Factions and structures are numbered from 1 to one below their next number, without a gap.
    /// No unit has the next unit number or a greater one.
    Next = 5,
    /// A unit has at least 1 day in each skill that it studied, and at most MOST_DAYS for each man.
    Days = 6,
    /// The factions that are gone are those without units.
    Gone = 7,
    /// A structure is owned by a unit inside, or by nobody where there is none.
    Owners = 8,
    /// On water units are inside ships, and structures are complete ships.
    Water = 9,
    /// At most one faction guards a region.
    Guards = 10,
    /// The amounts of the books are of entries and things that are there, and the books balance.
    Books = 11,
    /// Mail is of factions that aren't gone, and has at most 65,536 bytes and a header with the
    /// faction's number. Each faction has a report.
    Mail = 12,
}

impl Rule {
    /// The rule's number, from 1 to 12.
    pub fn number(self) -> u8
        ensures { result ≡ rule_number self }
    {
        self as u8
    }
}

/// Why rows are refused as those of a good campaign: a rule that they break, or lack of memory.
#[derive(Drop, Clone, Copy, Debug, PartialEq, Eq)]
pub enum CheckFault {
    /// The first rule that the rows break.
    Damaged(Rule),
    /// There was no memory for the check.
    Memory,
}

/// Shows a fault as `Damaged` with the rule's number, such as `Damaged 11`, or as `Memory`.
impl fmt::Display for CheckFault {
    fn fmt<W: fmt::Write>(&self, f: &mut fmt::Formatter<W>) -> fmt::Result {
        match self {
            CheckFault::Damaged(rule) => write!(f, "Damaged {}", rule.number()),
            CheckFault::Memory => write!(f, "Memory"),
        }
    }
}

impl Error for CheckFault {}

fn keeps_one_row(format: Format, parts: &Parts) -> bool
    ensures { IsTrue result ↔
        (IsTrue (is_one_campaign_row format parts.now.campaign)
        × IsTrue (are_of_format format parts.now.markets)) }
{
    is_one_campaign_row(format, parts.campaign.as_slice())
        && are_of_format(format, parts.markets.as_slice())
}

/// Checks rules 1 to 3.
fn check_rows(alloc: Global, world: &World, parts: &Parts, format: Format) -> Result<(), CheckFault>
    ensures { ChecksBelow format world.now parts.now 4 result }
{
    if !keeps_one_row(format, parts) {
        return Err(CheckFault::Damaged(Rule::OneRow));
    }
    match rows_in_range(alloc, world, parts) {
        Ok(true) => {}
        Ok(false) => return Err(CheckFault::Damaged(Rule::Ranges)),
        Err(_) => return Err(CheckFault::Memory),
    }
    match rows_named(alloc, parts) {
        Ok(true) => Ok(()),
        Ok(false) => Err(CheckFault::Damaged(Rule::Names)),
        Err(_) => Err(CheckFault::Memory),
    }
}

fn are_of_units(parts: &Parts, campaign: &Campaign) -> bool
    ensures { result ≡ list_all (is_of_unit campaign.now.value) parts.now.has }
{
    parts
        .has
        .as_slice()
        .iter()
        .all(|row| campaign.unit(as_u32(row.unit)).is_some())
}

fn entries_in(format: Format) -> usize
    ensures { result ≡ entries_in format }
{
    match format {
        Format::First => FIRST_ENTRY_COUNT,
        Format::Second => ENTRY_COUNT,
    }
}

fn is_booked(format: Format, world: &World, row: &StoredBooks) -> bool
    ensures { result ≡ is_booked format world.now row.now }
{
    let entry = as_u32(row.entry) as usize;
    let things = FIRST_ITEM + world.items().len();
    1 <= entry && entry <= entries_in(format) && (as_u32(row.thing) as usize) < things
}

fn are_booked(format: Format, world: &World, parts: &Parts) -> bool
    ensures { result ≡ list_all (is_booked format world.now) parts.now.books }
{
    parts
        .books
        .as_slice()
        .iter()
        .all(|row| is_booked(format, world, row))
}

/// Whether rows of `has` are of units that are there, and rows of `market` of markets of the world.
fn are_goods_known(world: &World, parts: &Parts, campaign: &Campaign) -> bool
    ensures { IsTrue result ↔
        (IsTrue (list_all (is_of_unit campaign.now.value) parts.now.has)
        × IsTrue (list_all (is_of_market world.now) parts.now.markets)) }
{
    are_of_units(parts, campaign) && are_of_markets(world, parts.markets.as_slice())
}

fn keeps_known(world: &World, parts: &Parts, campaign: &Campaign) -> bool
    ensures { IsTrue result ↔
        (AreKnown world.now campaign.now.value
        × IsTrue (list_all (is_of_unit campaign.now.value) parts.now.has)
        × IsTrue (list_all (is_of_market world.now) parts.now.markets)) }
{
    are_known(world, campaign) && are_goods_known(world, parts, campaign)
}

/// `campaign` is read from `rows`, which keep rules 1 to 10; `parts` has them but for those of
/// units, mail and reports.
fn keeps_books(format: Format, world: &World, parts: &Parts, campaign: &Campaign) -> bool
    ghost rows: { Parts }
    requires what { campaign.now.value ≡ campaign_of world.now rows }
    requires rest { parts.now ≡ without_moved rows }
    requires before { KeepsRulesBelow format world.now rows 11 }
    ensures { IsTrue result ↔ (KeepsRule format world.now rows rule.Books) }
{
    are_booked(format, world, parts) && are_balanced(world, campaign)
}

fn keeps_mail(campaign: &Campaign) -> bool
    ensures { IsTrue result ↔
        (HasValidMail campaign.now.value × AreReported campaign.now.value) }
{
    are_mailings(campaign) && are_reported(campaign)
}

/// `campaign` is read from `rows`, which keep rules 1 to 3; `parts` has them but for those of
/// units, mail and reports.
fn check_rules_4_to_7(
    world: &World,
    parts: &Parts,
    format: Format,
    campaign: &Campaign,
) -> Result<(), CheckFault>
    ghost rows: { Parts }
    requires what { campaign.now.value ≡ campaign_of world.now rows }
    requires rest { parts.now ≡ without_moved rows }
    requires before { KeepsRulesBelow format world.now rows 4 }
    ensures { ChecksBelow format world.now rows 8 result }
{
    if !keeps_known(world, parts, campaign) {
        return Err(CheckFault::Damaged(Rule::Known));
    }
    if !are_numbered(campaign) {
        return Err(CheckFault::Damaged(Rule::Next));
    }
    if !are_days(campaign) {
        return Err(CheckFault::Damaged(Rule::Days));
    }
    if !are_gone_iff_unitless(campaign) {
        return Err(CheckFault::Damaged(Rule::Gone));
    }
    Ok(())
}

/// `campaign` is read from `rows`, which keep rules 1 to 7; `parts` has them but for those of
/// units, mail and reports.
fn check_rules_8_to_12(
    world: &World,
    parts: &Parts,
    format: Format,
    campaign: &Campaign,
) -> Result<(), CheckFault>
    ghost rows: { Parts }
    requires what { campaign.now.value ≡ campaign_of world.now rows }
    requires rest { parts.now ≡ without_moved rows }
    requires before { KeepsRulesBelow format world.now rows 8 }
    ensures { ChecksBelow format world.now rows 13 result }
{
    if !are_owned(campaign) {
        return Err(CheckFault::Damaged(Rule::Owners));
    }
    if !are_afloat(world, campaign) {
        return Err(CheckFault::Damaged(Rule::Water));
    }
    if !are_guarded(campaign) {
        return Err(CheckFault::Damaged(Rule::Guards));
    }
    if !keeps_books(format, world, parts, campaign) {
        return Err(CheckFault::Damaged(Rule::Books));
    }
    if !keeps_mail(campaign) {
        return Err(CheckFault::Damaged(Rule::Mail));
    }
    Ok(())
}

/// Checks all twelve rules. `rows` are the parts as they come in.
fn check_parts(
    alloc: Global,
    world: &World,
    mut parts: Parts,
    format: Format,
) -> Result<Campaign, CheckFault>
    ghost rows: { Parts }
    requires { parts ≡ rows }
    ensures { Checks format world.now rows result }
{
    check_rows(alloc, world, &parts, format)?;
    let campaign = match assemble(alloc, world, &mut parts) {
        Ok(campaign) => campaign,
        Err(_) => return Err(CheckFault::Memory),
    };
    check_rules_4_to_7(world, &parts, format, &campaign)?;
    check_rules_8_to_12(world, &parts, format, &campaign)?;
    Ok(campaign)
}

/// Checks the rows of a format by the twelve rules. Ok has the good campaign whose rows are just
/// these, in any order, with nothing marked; Err has the first rule that they break, or Memory. If
/// the world keeps its rules, the rows of a good campaign, in any order, give that campaign or
/// Memory. In the first format both are campaigns without stocks, and without amounts under the
/// entries of markets. See docs/FORMATS.md, "Rules of the tables".
pub fn check_as(
    alloc: Global,
    world: &World,
    parts: Parts,
    format: Format,
) -> Result<Campaign, CheckFault>
    ensures rules { Checks format world.now parts result }
    ensures whole { IsWorld world.now → GivesBack format world.now parts result }
{
    let answer = check_parts(alloc, world, parts, format);
    answer
}

/// Checks the rows of the second format by the twelve rules. Ok has the good campaign whose rows
/// are just these, in any order, with nothing marked; Err has the first rule that they break, or
/// Memory. If the world keeps its rules, the rows of a good campaign, in any order, give that
/// campaign or Memory.
pub fn check(alloc: Global, world: &World, parts: Parts) -> Result<Campaign, CheckFault>
    ensures rules { Checks Second world.now parts result }
    ensures whole { IsWorld world.now → GivesBack Second world.now parts result }
{
    check_as(alloc, world, parts, Format::Second)
}
