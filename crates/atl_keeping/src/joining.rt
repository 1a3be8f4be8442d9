//! Writes the rows of a faction's joining into the tables. See docs/RULES.md, "Joining". With Ok a
//! function did so, if the disk is clean and there are a campaign's tables (`HasTables`). `arrival`
//! has to be what joined `campaign` (`HasArrivalWith`). On a clean disk Err has the error of a
//! statement or of the commit.
ghost use Rattle.std.specs.Prelude.{◌≡◌, [], false, List, ℕ, IfErr, OnOk, OnErr};
ghost use Rattle.sqlite.specs.Held.{state};
ghost use Rattle.sqlite.specs.State.{HasCleanDisk};
ghost use Rattle.atl_campaign.specs.Campaign.{CampaignValue};
ghost use Rattle.atl_records.specs.declared.books.BooksEntry.TheVariants.{Joining};
ghost use Rattle.atl_records.specs.declared.books.Thing.TheVariants.{Money, People};
ghost use Rattle.atl_descriptions.specs.Tables.{faction_table, unit_table, report_table};
ghost use Rattle.atl_sql.specs.Shown.{report_row};
ghost use Rattle.atl_writing.specs.Rows.{campaign_row_of, row_of_faction, row_of_unit};
ghost use Rattle.atl_sql.specs.PutsCampaignRow.{PutsCampaignRow};
ghost use Rattle.atl_sql.specs.Causes.{IsFaultOfError};
ghost use Rattle.atl_keeping.specs.Faults.{write_fault};
ghost use Rattle.atl_writing.specs.OwnStatements.{OfJoining};
ghost use Rattle.atl_sql.specs.Writes.{Writes, Transacts};
ghost use Rattle.atl_sql.specs.Inside.{DoesInside, HasTables, DoesBoth, Puts, LeavesOff};
ghost use Rattle.atl_writing.specs.Arriving.{HasArrival, HasArrivalWith, WritesAmount, WritesJoin};
ghost use Rattle.atl_keeping.specs.Keeps.{Keeps, LeavesAfterFault, IsLater, LeavesOthersAlone, IsJoining};

use crate::fault::WriteFault;
use atl_campaign::{BooksEntry, Campaign, Faction, Thing, Unit};
use atl_world::Text;
use atl_writing::{NumberedRow, put_campaign_row, write_amount};
use sqlite::{Alter, Connection, Error, Transaction};

/// A faction that joined, with its report and the unit numbered last, whose number is
/// `unit_number`.
#[derive(Clone, Copy)]
struct Arrival<'a> {
    number: u32,
    faction: &'a Faction,
    unit_number: u32,
    unit: &'a Unit,
    report: &'a Text,
}

/// The faction `number` with its report, and the unit numbered last; the campaign has to have them.
fn arrival_of(campaign: &Campaign, number: u32) -> Arrival<'_>
    requires { HasArrival campaign.now.value number }
    ensures found { HasArrivalWith campaign.now.value result.number result.faction.now
        result.unit_number
        result.unit.now result.report.now }
    ensures number { result.number ≡ number }
{
    let unit_number = campaign.next_unit() - 1;
    Arrival {
        number,
        faction: campaign.faction(number).unwrap(),
        unit_number,
        unit: campaign.unit(unit_number).unwrap(),
        report: campaign.report(number).unwrap(),
    }
}

/// Puts the campaign row, the faction and its unit. A campaign row that is there keeps its world
/// text, so an empty one is given here.
fn put_newcomer<S: Alter>(
    tx: &mut Transaction<'_, S>,
    campaign: &Campaign,
    arrival: &Arrival<'_>,
) -> Result<(), Error>
    requires { HasArrivalWith campaign.now.value arrival.now.number arrival.now.faction.now
        arrival.now.unit_number arrival.now.unit.now arrival.now.report.now }
    ensures { Writes S.Store (OfJoining arrival.now.number campaign.now.value)
        (DoesInside HasTables (DoesBoth (PutsCampaignRow (campaign_row_of campaign.now.value) [])
        (DoesBoth (Puts faction_table 1 (row_of_faction arrival.now.number arrival.now.faction.now))
        (Puts unit_table 1 (row_of_unit arrival.now.unit_number arrival.now.unit.now))))) result
        tx.old.conn
        tx.new.conn }
{
    put_campaign_row(tx, campaign, "")?;
    arrival.faction.put(tx, arrival.number)?;
    arrival.unit.put(tx, arrival.unit_number)
}

/// Puts the report's row, and writes the money and the people that the books have under joining.
fn put_report_and_amounts<S: Alter>(
    tx: &mut Transaction<'_, S>,
    campaign: &Campaign,
    arrival: &Arrival<'_>,
) -> Result<(), Error>
    requires { HasArrivalWith campaign.now.value arrival.now.number arrival.now.faction.now
        arrival.now.unit_number arrival.now.unit.now arrival.now.report.now }
    ensures { Writes S.Store (OfJoining arrival.now.number campaign.now.value)
        (DoesInside HasTables (DoesBoth
        (Puts report_table 1 (report_row arrival.now.number arrival.now.report.now))
        (DoesBoth (WritesAmount campaign.now.value Joining Money)
        (WritesAmount campaign.now.value Joining People)))) result tx.old.conn tx.new.conn }
{
    arrival.report.put(tx, arrival.number)?;
    write_amount(tx, campaign, BooksEntry::Joining, Thing::Money)?;
    write_amount(tx, campaign, BooksEntry::Joining, Thing::People)
}

fn put_joining<S: Alter>(
    tx: &mut Transaction<'_, S>,
    campaign: &Campaign,
    arrival: &Arrival<'_>,
) -> Result<(), Error>
    requires { HasArrivalWith campaign.now.value arrival.now.number arrival.now.faction.now
        arrival.now.unit_number arrival.now.unit.now arrival.now.report.now }
    ensures { Writes S.Store (OfJoining arrival.now.number campaign.now.value)
        (DoesInside HasTables (WritesJoin arrival.now.number campaign.now.value)) result tx.old.conn
        tx.new.conn }
{
    put_newcomer(tx, campaign, arrival)?;
    put_report_and_amounts(tx, campaign, arrival)
}

/// Writes the join in one transaction; `conn` has to be in none before.
fn write_joining<S: Alter>(
    conn: &mut Connection<S>,
    campaign: &Campaign,
    arrival: &Arrival<'_>,
) -> Result<(), Error>
    requires idle { conn.old.in_transaction ≡ false }
    requires found { HasArrivalWith campaign.now.value arrival.now.number arrival.now.faction.now
        arrival.now.unit_number arrival.now.unit.now arrival.now.report.now }
    ensures { Transacts S.Store (OfJoining arrival.now.number campaign.now.value) HasTables
        (WritesJoin arrival.now.number campaign.now.value) result conn.old conn.new }
{
    let mut tx = conn.transaction();
    put_joining(&mut tx, campaign, arrival)?;
    tx.commit()
}

/// Writes a join into a database that holds the campaign before it, in one transaction: the
/// campaign row, the faction, its unit and its report, and what joining booked. `campaign` has to
/// be the one after the join of `faction`, with this faction's first report stored (`HasArrival`,
/// `IsJoining`); `conn` has to be in no transaction, and is in none afterwards. With Ok the
/// database holds this campaign, and no other row is touched. Memory: the database says that it has
/// none. Store: it gives another error. After a fault the database holds the campaign before while
/// the connection is open, and a crash leaves the one before or the one after. All of this is
/// promised on a clean disk (docs/PROVED.md, "Premises"). See docs/FORMATS.md, "Tables".
pub fn write_join<S: Alter>(
    conn: &mut Connection<S>,
    campaign: &Campaign,
    faction: u32,
) -> Result<(), WriteFault>
    requires idle { conn.old.in_transaction ≡ false }
    requires arrived { HasArrival campaign.now.value faction }
    ensures ok { HasCleanDisk (state S.Store conn.new)
        → OnOk result ((text : List ℕ) (before : CampaignValue)
        → Keeps (state S.Store conn.old) text before → IsJoining before faction campaign.now.value
        → Keeps (state S.Store conn.new) text campaign.now.value) }
    ensures err { HasCleanDisk (state S.Store conn.new)
        → OnErr result ((text : List ℕ) (before : CampaignValue)
        → Keeps (state S.Store conn.old) text before → IsJoining before faction campaign.now.value
        → LeavesAfterFault (state S.Store conn.old).faults (state S.Store conn.new) text before
        campaign.now.value) }
    ensures own { HasCleanDisk (state S.Store conn.new)
        → OnOk result (HasTables (state S.Store conn.old).now
        → WritesJoin faction campaign.now.value (state S.Store conn.old).now
        (state S.Store conn.new).now) }
    ensures left { HasCleanDisk (state S.Store conn.new)
        → OnErr result (LeavesOff (state S.Store conn.old) (state S.Store conn.new)) }
    ensures reports_error { HasCleanDisk (state S.Store conn.new)
        → IfErr result (IsFaultOfError S.Store (OfJoining faction campaign.now.value) write_fault
        conn.old
        conn.new) }
    ensures later { IsLater (state S.Store conn.old) (state S.Store conn.new) }
    ensures others { HasCleanDisk (state S.Store conn.new)
        → LeavesOthersAlone (state S.Store conn.old) (state S.Store conn.new) }
    ensures idle { conn.new.in_transaction ≡ false }
{
    let arrival = arrival_of(campaign, faction);
    write_joining(conn, campaign, &arrival)?;
    Ok(())
}
