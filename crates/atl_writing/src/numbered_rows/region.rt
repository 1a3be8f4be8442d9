//! The regions of a campaign as rows of `region`.
ghost use Rattle.std.specs.Prelude.{refl};
ghost use Rattle.atl_descriptions.specs.Tables.{Regions};
ghost use Rattle.atl_writing.specs.Rows.{row_of_region};

use super::{Mapped, NumberedRow};
use atl_campaign::{Campaign, Region};
use atl_rows::parts::StoredRegion;
use atl_sql::rows::{put, take_out_number};
use atl_world::{Entries, MarkedNumbers};
use sqlite::{Alter, Error, Transaction, params};

/// Its row has its number, peasants and money; its stocks are rows of `market`.
impl NumberedRow for Region {
    ghost part = { Regions };

    ghost is_numbered = { tt };

    ghost line = { row_of_region };

    ghost numbered = { λ n v. refl };

    ghost values = { λ c. c.regions };

    ghost marks = { λ m. m.regions };

    ghost are_rows = { λ own c r. (λ is. is, λ is. is) };

    ghost are_marked = { λ m r. refl };

    fn find_value(campaign: &Campaign, number: u32) -> Option<&Region> {
        campaign.region(number)
    }

    fn marked_numbers(campaign: &Campaign) -> MarkedNumbers<'_> {
        campaign.marked_regions()
    }

    fn put<S: Alter>(&self, tx: &mut Transaction<'_, S>, number: u32) -> Result<(), Error> {
        put::<StoredRegion, S>(tx, params![number, self.peasants, self.money])
    }

    fn take_out<S: Alter>(tx: &mut Transaction<'_, S>, number: u32) -> Result<(), Error> {
        take_out_number::<StoredRegion, S>(tx, number)
    }
}

impl Mapped for Region {
    fn all(campaign: &Campaign) -> Entries<'_, Region> {
        campaign.regions()
    }
}
