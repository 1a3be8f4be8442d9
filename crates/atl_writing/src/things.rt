//! Writes the marked single items and skills of units, row by row, into the table `has`. Each write
//! is a step of a transaction on the ten tables and a clean disk; an error is the database's.
ghost use Rattle.std.specs.Prelude.{◌≡◌};
ghost use Rattle.atl_writing.specs.Rows.{HasRowsOf, amount_under};
ghost use Rattle.atl_writing.specs.OwnStatements.{OfChange};
ghost use Rattle.atl_descriptions.specs.Tables.{has_table};
ghost use Rattle.atl_sql.specs.Writes.{Writes};
ghost use Rattle.atl_sql.specs.Inside.{DoesInside, HasTables};
ghost use Rattle.atl_writing.specs.Marked.{unit_and_thing_pass};
ghost use Rattle.atl_writing.specs.Rewriting.{RewritesThings, is_owner_and_thing, marked_things};

use crate::goods::put_thing;
use crate::singles::SingleAmounts;
use atl_campaign::Campaign;
use atl_rows::parts::StoredHas;
use atl_sql::rows::has::ThingKind;
use atl_sql::rows::take_out;
use atl_world::{Entries, Numbered};
use sqlite::{Alter, Error, Transaction, params};

/// How much of the item, or how many days of the skill, the unit has; 0 if there is no such unit.
fn amount_of(campaign: &Campaign, unit: u32, sort: ThingKind, thing: u32) -> u32
    ensures { result ≡ amount_under campaign.now.value.units unit sort thing }
{
    let Some(unit) = campaign.unit(unit) else {
        return 0;
    };
    match sort {
        ThingKind::Item => unit.holding.amount(thing),
        ThingKind::Skill => unit.holding.days_of(thing),
    }
}

/// Puts the row of the amount, or deletes it if the amount is 0; marks aren't looked at.
fn rewrite_thing<S: Alter>(
    tx: &mut Transaction<'_, S>,
    campaign: &Campaign,
    unit: u32,
    sort: ThingKind,
    thing: u32,
) -> Result<(), Error>
    ensures { Writes S.Store (OfChange campaign.now.value)
        (DoesInside HasTables (RewritesThings campaign.now.value sort
        (is_owner_and_thing unit thing))) result
        tx.old.conn tx.new.conn }
{
    let amount = amount_of(campaign, unit, sort, thing);
    if amount == 0 {
        return take_out::<StoredHas, S>(tx, params![unit, sort.number(), thing]);
    }
    put_thing(tx, unit, sort, thing, amount)
}

impl SingleAmounts for ThingKind {
    ghost table = { has_table };

    ghost wanted = { λ c. HasRowsOf c.units };

    ghost finds = { unit_and_thing_pass };

    ghost marks = { λ sort m. marked_things m sort };

    fn marked_singles(self, campaign: &Campaign) -> Entries<'_, Numbered<()>> {
        match self {
            ThingKind::Item => campaign.marked_items(),
            ThingKind::Skill => campaign.marked_skills(),
        }
    }

    fn rewrite_single<S: Alter>(
        self,
        tx: &mut Transaction<'_, S>,
        campaign: &Campaign,
        owner: u32,
        number: u32,
    ) -> Result<(), Error> {
        rewrite_thing(tx, campaign, owner, self, number)
    }
}
