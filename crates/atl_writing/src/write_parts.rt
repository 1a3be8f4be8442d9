//! Writes the parts of a campaign but the campaign row, each into its table, one after another, in
//! steps of a transaction on the ten tables and a clean disk; an error is the database's.
ghost use Rattle.std.specs.Prelude.{◌≤◌, ◌++◌, List, [], ◌∷◌};
ghost use Rattle.atl_records.specs.Limits.{most_things};
ghost use Rattle.atl_descriptions.specs.Tables.{Part, Units, Goods, Books, Markets};
ghost use Rattle.atl_writing.specs.OwnStatements.{OfRow, OfChange};
ghost use Rattle.atl_sql.specs.Writes.{Writes};
ghost use Rattle.atl_sql.specs.Inside.{DoesInside, HasTables, InTurn};
ghost use Rattle.atl_writing.specs.Filling.{FillsPart};
ghost use Rattle.atl_writing.specs.Rewriting.{RewritesPart};

use crate::goods::{put_all_goods, rewrite_goods};
use crate::ledger::{put_all_books, rewrite_books};
use crate::markets::{put_all_stocks, rewrite_stocks};
use crate::numbered_rows::{Mapped, put_each, put_units};
use crate::rewriting::rewrite_marked;
use atl_campaign::{Campaign, Faction, Region, Structure, Unit};
use atl_world::{Numbered, Sequence, Text};
use sqlite::{Alter, Error, Transaction};

/// All parts of a campaign but the campaign row, in the order in which they are written:
/// factions, reports, regions, structures, books, stocks, units, what these have, and mail.
pub(crate) type OtherParts = (
    Numbered<Faction>,
    (
        Numbered<Text>,
        (
            Numbered<Region>,
            (
                Numbered<Structure>,
                (
                    Ledger,
                    (Stocks, (UnitRows, (UnitGoods, Numbered<Sequence<u8>>))),
                ),
            ),
        ),
    ),
);

/// The books, as a part to write.
pub(crate) struct Ledger;

/// The stocks of all markets, as a part to write.
pub struct Stocks;

/// The units themselves, which the campaign holds in slots, as a part to write.
pub(crate) struct UnitRows;

/// The items and skills of all units, as a part to write.
pub(crate) struct UnitGoods;

/// One or more parts of a campaign that are written together, each into its table. The books may
/// have no more things than a world can have.
pub(crate) trait WrittenPart {
    // The parts that are written, in their order.
    ghost parts: { List Part };

    /// Puts all rows of the type's parts into their tables. A table that was empty then has exactly
    /// these rows. The tables of all other parts stay.
    fn fill<S: Alter>(tx: &mut Transaction<'_, S>, campaign: &Campaign) -> Result<(), Error>
        requires { campaign.now.value.books.things ≤ most_things }
        ensures { Writes S.Store (OfRow campaign.now.value)
            (DoesInside HasTables (InTurn (FillsPart campaign.now.value) parts)) result tx.old.conn
            tx.new.conn };

    /// Puts the marked rows of the type's parts, and deletes the marked rows that the campaign
    /// lacks. All other rows stay.
    fn rewrite<S: Alter>(tx: &mut Transaction<'_, S>, campaign: &Campaign) -> Result<(), Error>
        requires { campaign.now.value.books.things ≤ most_things }
        ensures { Writes S.Store (OfChange campaign.now.value)
            (DoesInside HasTables (InTurn (RewritesPart campaign.now) parts)) result tx.old.conn
            tx.new.conn };
}

impl<X: WrittenPart, Y: WrittenPart> WrittenPart for (X, Y) {
    ghost parts = { X.parts ++ Y.parts };

    fn fill<S: Alter>(tx: &mut Transaction<'_, S>, campaign: &Campaign) -> Result<(), Error> {
        X::fill(tx, campaign)?;
        Y::fill(tx, campaign)
    }

    fn rewrite<S: Alter>(tx: &mut Transaction<'_, S>, campaign: &Campaign) -> Result<(), Error> {
        X::rewrite(tx, campaign)?;
        Y::rewrite(tx, campaign)
    }
}

impl<V: Mapped + Drop> WrittenPart for Numbered<V> {
    ghost parts = { V.NumberedRow.part ∷ [] };

    fn fill<S: Alter>(tx: &mut Transaction<'_, S>, campaign: &Campaign) -> Result<(), Error> {
        put_each(tx, V::all(campaign))
    }

    fn rewrite<S: Alter>(tx: &mut Transaction<'_, S>, campaign: &Campaign) -> Result<(), Error> {
        rewrite_marked::<V, S>(tx, campaign)
    }
}

impl WrittenPart for Ledger {
    ghost parts = { Books ∷ [] };

    fn fill<S: Alter>(tx: &mut Transaction<'_, S>, campaign: &Campaign) -> Result<(), Error> {
        put_all_books(tx, campaign)
    }

    fn rewrite<S: Alter>(tx: &mut Transaction<'_, S>, campaign: &Campaign) -> Result<(), Error> {
        rewrite_books(tx, campaign)
    }
}

impl WrittenPart for Stocks {
    ghost parts = { Markets ∷ [] };

    fn fill<S: Alter>(tx: &mut Transaction<'_, S>, campaign: &Campaign) -> Result<(), Error> {
        put_all_stocks(tx, campaign.regions())
    }

    fn rewrite<S: Alter>(tx: &mut Transaction<'_, S>, campaign: &Campaign) -> Result<(), Error> {
        rewrite_stocks(tx, campaign)
    }
}

impl WrittenPart for UnitRows {
    ghost parts = { Units ∷ [] };

    fn fill<S: Alter>(tx: &mut Transaction<'_, S>, campaign: &Campaign) -> Result<(), Error> {
        put_units(tx, campaign.units())
    }

    fn rewrite<S: Alter>(tx: &mut Transaction<'_, S>, campaign: &Campaign) -> Result<(), Error> {
        rewrite_marked::<Unit, S>(tx, campaign)
    }
}

impl WrittenPart for UnitGoods {
    ghost parts = { Goods ∷ [] };

    fn fill<S: Alter>(tx: &mut Transaction<'_, S>, campaign: &Campaign) -> Result<(), Error> {
        put_all_goods(tx, campaign.units())
    }

    fn rewrite<S: Alter>(tx: &mut Transaction<'_, S>, campaign: &Campaign) -> Result<(), Error> {
        rewrite_goods(tx, campaign)
    }
}
