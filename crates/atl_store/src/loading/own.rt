//! Reads the campaign row and its world, and judges them by the first rule of the tables.
ghost use Rattle.std.specs.Prelude.{◌≡◌, false, IfOk, IfErr, ◌↔◌, IsTrue};
ghost use Rattle.sqlite.specs.Held.{state};
ghost use Rattle.sqlite.specs.Order.{column};
ghost use Rattle.sqlite.specs.State.{HasCleanDisk};
ghost use Rattle.atl_tables.specs.Faults.{Reads};
ghost use Rattle.atl_world.specs.Formats.{format_number};
ghost use Rattle.atl_tables.specs.World.{world_of_text};
ghost use Rattle.atl_store.specs.Gathering.{IsCommitted, campaign_row_fault, only_of, ReadsWorld, JudgesOwn, JudgesRows, JudgesFormat, OwnRead};
ghost use Rattle.atl_store.specs.Loading.{AfterReads, RefusesToLoadIn, AreOfOtherFormat, other_format};
ghost use Rattle.atl_sql.specs.Shown.{int};

use crate::fault::{LoadFault, ReadFault};
use atl_sql::rows::campaign::{StoredCampaign, select_campaign};
use atl_sql::rows::parse_rows;
use atl_state::Rule;
use atl_tables::{WorldFault, read_old_world, read_world};
use atl_world::{Format, World};
use atl_writing::has_id_and_format;
use sqlite::types::ValueRef;
use sqlite::{Alter, Connection, Row};
use std::alloc::Global;

fn campaign_row_fault(fault: ReadFault) -> LoadFault
    ensures { result ≡ campaign_row_fault fault }
{
    match fault {
        ReadFault::Store => LoadFault::Store,
        ReadFault::Refused => LoadFault::NotACampaign,
        ReadFault::Memory => LoadFault::Memory,
        ReadFault::OtherType => LoadFault::Damaged(Rule::OneRow),
    }
}

fn only_row(mut rows: Vec<StoredCampaign>) -> Option<StoredCampaign>
    ensures { result ≡ only_of rows.items }
{
    let last = rows.pop();
    if rows.is_empty() { last } else { None }
}

/// The world of a text in the format, of which the first has no markets; or its fault, or Memory.
fn world_by(alloc: Global, text: &str, format: Format) -> Result<World, WorldFault>
    ensures { Reads (λ w. w) result (world_of_text format text.now) }
{
    match format {
        Format::First => read_old_world(alloc, text),
        Format::Second => read_world(alloc, text),
    }
}

fn world_from(alloc: Global, text: &str, format: Format) -> Result<World, LoadFault>
    ensures { ReadsWorld format text.now result }
{
    match world_by(alloc, text, format) {
        Ok(world) => Ok(world),
        Err(WorldFault::Memory) => Err(LoadFault::Memory),
        Err(_) => Err(LoadFault::Damaged(Rule::OneRow)),
    }
}

fn check_own_rows(
    alloc: Global,
    rows: Vec<StoredCampaign>,
    format: Format,
) -> Result<(StoredCampaign, World), LoadFault>
    ensures { JudgesOwn format rows.items result }
{
    let Some(own) = only_row(rows) else {
        return Err(LoadFault::Damaged(Rule::OneRow));
    };
    if !has_id_and_format(&own.head, format) {
        return Err(LoadFault::Damaged(Rule::OneRow));
    }
    let world = world_from(alloc, own.world.as_str(), format)?;
    Ok((own, world))
}

fn judge_rows(
    alloc: Global,
    rows: &[Row],
    format: Format,
) -> Result<(StoredCampaign, World), LoadFault>
    ensures { JudgesRows format rows.now result }
{
    match parse_rows(alloc, rows) {
        Ok(rows) => check_own_rows(alloc, rows, format),
        Err(fault) => Err(campaign_row_fault(fault)),
    }
}

fn other_format(format: Format) -> Format
    ensures { result ≡ other_format format }
{
    match format {
        Format::First => Format::Second,
        Format::Second => Format::First,
    }
}

/// The format is column 1 of `campaign`, counted from 0.
fn has_format(row: &Row, format: Format) -> bool
    ensures { IsTrue result ↔ (column row.now 1 ≡ int (format_number format)) }
{
    match row.get_ref(1) {
        Ok(ValueRef::Int(number)) => number == i64::from(format.number()),
        _ => false,
    }
}

fn are_of_other_format(rows: &[Row], format: Format) -> bool
    ensures { IsTrue result ↔ (AreOfOtherFormat format rows.now) }
{
    rows.len() == 1 && has_format(&rows[0], other_format(format))
}

fn judge_format(
    alloc: Global,
    rows: &[Row],
    format: Format,
) -> Result<(StoredCampaign, World), LoadFault>
    ensures { JudgesFormat format rows.now result }
{
    if are_of_other_format(rows, format) {
        return Err(LoadFault::OtherFormat);
    }
    judge_rows(alloc, rows, format)
}

/// Reads the one campaign row, which has to keep the first rule, and its world. That the row is of
/// the other format is tested before the types of its values. All is committed before, `conn` is in
/// no transaction, and what is read, or the fault, is promised on a clean disk.
pub(crate) fn read_own<S: Alter>(
    alloc: Global,
    conn: &mut Connection<S>,
    format: Format,
) -> Result<(StoredCampaign, World), LoadFault>
    requires idle { conn.old.in_transaction ≡ false }
    requires settled { IsCommitted (state S.Store conn.old) }
    ensures ok { HasCleanDisk (state S.Store conn.new)
        → IfOk result (λ both. OwnRead S.Store conn.old format both.0 both.1) }
    ensures err { HasCleanDisk (state S.Store conn.new)
        → IfErr result (RefusesToLoadIn format S.Store conn.old) }
    ensures leaves { AfterReads S.Store conn.old conn.new }
{
    match select_campaign(conn) {
        Ok(rows) => judge_format(alloc, rows.as_slice(), format),
        Err(fault) => Err(campaign_row_fault(fault)),
    }
}
