//! The units of a campaign as rows of `unit`.
ghost use Rattle.std.specs.Prelude.{refl};
ghost use Rattle.atl_descriptions.specs.Tables.{Units};
ghost use Rattle.atl_writing.specs.Rows.{row_of_unit};

use super::NumberedRow;
use atl_campaign::{Campaign, Unit};
use atl_rows::parts::StoredUnit;
use atl_sql::rows::{put, take_out_number};
use atl_world::MarkedNumbers;
use sqlite::{Alter, Error, Transaction, params};

/// Its row has its number, faction, name, place, men, money and guard flag; its items and days of
/// study are rows of the table `has`.
impl NumberedRow for Unit {
    ghost part = { Units };

    ghost is_numbered = { tt };

    ghost line = { row_of_unit };

    ghost numbered = { λ n v. refl };

    ghost values = { λ c. c.units };

    ghost marks = { λ m. m.rows };

    ghost are_rows = { λ own c r. (λ is. is, λ is. is) };

    ghost are_marked = { λ m r. refl };

    fn find_value(campaign: &Campaign, number: u32) -> Option<&Unit> {
        campaign.unit(number)
    }

    fn marked_numbers(campaign: &Campaign) -> MarkedNumbers<'_> {
        campaign.marked_rows()
    }

    fn put<S: Alter>(&self, tx: &mut Transaction<'_, S>, number: u32) -> Result<(), Error> {
        put::<StoredUnit, S>(
            tx,
            params![
                number,
                self.faction,
                self.holding.name().as_str(),
                self.region,
                self.structure,
                self.holding.men(),
                self.holding.money(),
                self.holding.guard()
            ],
        )
    }

    fn take_out<S: Alter>(tx: &mut Transaction<'_, S>, number: u32) -> Result<(), Error> {
        take_out_number::<StoredUnit, S>(tx, number)
    }
}
