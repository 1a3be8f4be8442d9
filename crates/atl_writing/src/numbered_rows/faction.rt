//! The factions of a campaign, gone or not, as rows of `faction`.
ghost use Rattle.std.specs.Prelude.{refl};
ghost use Rattle.atl_descriptions.specs.Tables.{Factions};
ghost use Rattle.atl_writing.specs.Rows.{row_of_faction};

use super::{Mapped, NumberedRow};
use atl_campaign::{Campaign, Faction};
use atl_rows::parts::StoredFaction;
use atl_sql::rows::{put, take_out_number};
use atl_world::{Entries, MarkedNumbers};
use sqlite::{Alter, Error, Transaction, params};

impl NumberedRow for Faction {
    ghost part = { Factions };

    ghost is_numbered = { tt };

    ghost line = { row_of_faction };

    ghost numbered = { λ n v. refl };

    ghost values = { λ c. c.factions };

    ghost marks = { λ m. m.factions };

    ghost are_rows = { λ own c r. (λ is. is, λ is. is) };

    ghost are_marked = { λ m r. refl };

    fn find_value(campaign: &Campaign, number: u32) -> Option<&Faction> {
        campaign.faction(number)
    }

    fn marked_numbers(campaign: &Campaign) -> MarkedNumbers<'_> {
        campaign.marked_factions()
    }

    fn put<S: Alter>(&self, tx: &mut Transaction<'_, S>, number: u32) -> Result<(), Error> {
        put::<StoredFaction, S>(
            tx,
            params![
                number,
                self.joined_as.as_str(),
                self.name.as_str(),
                self.pass.as_str(),
                self.gone
            ],
        )
    }

    fn take_out<S: Alter>(tx: &mut Transaction<'_, S>, number: u32) -> Result<(), Error> {
        take_out_number::<StoredFaction, S>(tx, number)
    }
}

impl Mapped for Faction {
    fn all(campaign: &Campaign) -> Entries<'_, Faction> {
        campaign.factions()
    }
}
