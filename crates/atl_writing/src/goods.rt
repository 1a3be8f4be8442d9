//! Writes units' goods into the table `has`: a row for each item and each skill of a unit whose
//! amount is not 0. Each call is a step of a transaction on the ten tables and a clean disk; an
//! error is the database's.
ghost use Rattle.std.specs.Prelude.{refl};
ghost use Rattle.atl_descriptions.specs.Tables.{Goods, has_table};
ghost use Rattle.atl_sql.specs.Shown.{has_row};
ghost use Rattle.atl_sql.specs.Written.{sort_number};
ghost use Rattle.atl_writing.specs.Rows.{HasRowsOf};
ghost use Rattle.atl_writing.specs.GroupedRows.{goods_lines, unit_goods_lines, all_goods_lines};
ghost use Rattle.atl_writing.specs.OwnStatements.{OfChange};
ghost use Rattle.atl_sql.specs.Writes.{Writes, WritesRow, WritesRows};
ghost use Rattle.atl_sql.specs.Inside.{DoesInside, HasTables};
ghost use Rattle.atl_writing.specs.Rewriting.{RewritesGoods};

use crate::amounts::{AmountWriter, put_amounts};
use crate::grouped::{Grouped, rewrite_marked_groups};
use crate::singles::rewrite_singles;
use atl_campaign::{Campaign, Holding, SlotEntries, Unit};
use atl_rows::parts::StoredHas;
use atl_sql::rows::has::{ThingKind, drop_goods};
use atl_sql::rows::put;
use atl_world::MarkedNumbers;
use sqlite::{Alter, Error, Transaction, params};

/// Inserts the row of an item or a skill of a unit, also of an amount of 0, or changes the row with
/// the same key.
pub fn put_thing<S: Alter>(
    tx: &mut Transaction<'_, S>,
    unit: u32,
    sort: ThingKind,
    thing: u32,
    amount: u32,
) -> Result<(), Error>
    ensures { WritesRow S.Store has_table 3 (has_row unit (sort_number sort) thing amount) result
        tx.old.conn tx.new.conn }
{
    put::<StoredHas, S>(tx, params![unit, sort.number(), thing, amount])
}

/// The items, or the skills, of one unit as amounts to write, by the unit's number and the kind.
#[derive(Clone, Copy)]
struct UnitThings {
    unit: u32,
    sort: ThingKind,
}

impl AmountWriter for UnitThings {
    ghost table = { has_table };

    ghost key = { 3 };

    ghost line = { λ t. has_row t.unit (sort_number t.sort) };

    fn put<S: Alter>(
        self,
        tx: &mut Transaction<'_, S>,
        thing: u32,
        amount: u32,
    ) -> Result<(), Error> {
        put_thing(tx, self.unit, self.sort, thing, amount)
    }
}

fn put_goods<S: Alter>(
    tx: &mut Transaction<'_, S>,
    unit: u32,
    holding: &Holding,
) -> Result<(), Error>
    ensures { WritesRows S.Store has_table 3 (goods_lines unit holding.now) result tx.old.conn
        tx.new.conn }
{
    let items = UnitThings {
        unit,
        sort: ThingKind::Item,
    };
    let skills = UnitThings {
        unit,
        sort: ThingKind::Skill,
    };
    put_amounts(tx, items, holding.items())?;
    put_amounts(tx, skills, holding.days())
}

/// Puts the rows of all items and skills of these units that are not 0, one unit after another.
pub(crate) fn put_all_goods<S: Alter>(
    tx: &mut Transaction<'_, S>,
    units: SlotEntries<'_, Unit>,
) -> Result<(), Error>
    ensures { WritesRows S.Store has_table 3 (all_goods_lines units.entry) result tx.old.conn
        tx.new.conn }
{
    for (number, unit) in units {
        put_goods(tx, number, &unit.holding)?;
    }
    Ok(())
}

impl Grouped for Unit {
    ghost part = { Goods };

    ghost is_grouped = { tt };

    ghost more = { 2 };

    ghost is_key = { refl };

    ghost lines = { unit_goods_lines };

    ghost wanted = { λ c. HasRowsOf c.units };

    ghost marks = { λ m. m.goods };

    ghost are_rows = { λ own c r is. is };

    fn marked_groups(campaign: &Campaign) -> MarkedNumbers<'_> {
        campaign.marked_goods()
    }

    fn put_rows<S: Alter>(&self, tx: &mut Transaction<'_, S>, number: u32) -> Result<(), Error> {
        put_goods(tx, number, &self.holding)
    }

    fn drop_rows<S: Alter>(tx: &mut Transaction<'_, S>, number: u32) -> Result<(), Error> {
        drop_goods(tx, number)
    }
}

/// Puts the marked rows of `has`, or deletes those that the campaign lacks: first of units whose
/// goods are all marked, then of items, and then of skills, that are marked one by one.
pub(crate) fn rewrite_goods<S: Alter>(
    tx: &mut Transaction<'_, S>,
    campaign: &Campaign,
) -> Result<(), Error>
    ensures { Writes S.Store (OfChange campaign.now.value)
        (DoesInside HasTables (RewritesGoods campaign.now)) result tx.old.conn tx.new.conn }
{
    rewrite_marked_groups::<Unit, S>(tx, campaign)?;
    rewrite_singles(tx, campaign, ThingKind::Item)?;
    rewrite_singles(tx, campaign, ThingKind::Skill)
}
