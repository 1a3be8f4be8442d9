//! The structures of a campaign as rows of `structure`.
ghost use Rattle.std.specs.Prelude.{refl};
ghost use Rattle.atl_descriptions.specs.Tables.{Structures};
ghost use Rattle.atl_writing.specs.Rows.{row_of_structure};

use super::{Mapped, NumberedRow};
use atl_campaign::{Campaign, Structure};
use atl_rows::parts::StoredStructure;
use atl_sql::rows::{put, take_out_number};
use atl_world::{Entries, MarkedNumbers};
use sqlite::{Alter, Error, Transaction, params};

impl NumberedRow for Structure {
    ghost part = { Structures };

    ghost is_numbered = { tt };

    ghost line = { row_of_structure };

    ghost numbered = { λ n v. refl };

    ghost values = { λ c. c.structures };

    ghost marks = { λ m. m.structures };

    ghost are_rows = { λ own c r. (λ is. is, λ is. is) };

    ghost are_marked = { λ m r. refl };

    fn find_value(campaign: &Campaign, number: u32) -> Option<&Structure> {
        campaign.structure(number)
    }

    fn marked_numbers(campaign: &Campaign) -> MarkedNumbers<'_> {
        campaign.marked_structures()
    }

    fn put<S: Alter>(&self, tx: &mut Transaction<'_, S>, number: u32) -> Result<(), Error> {
        put::<StoredStructure, S>(
            tx,
            params![
                number,
                u32::from(self.kind),
                self.name.as_str(),
                self.region,
                self.done,
                self.owner
            ],
        )
    }

    fn take_out<S: Alter>(tx: &mut Transaction<'_, S>, number: u32) -> Result<(), Error> {
        take_out_number::<StoredStructure, S>(tx, number)
    }
}

impl Mapped for Structure {
    fn all(campaign: &Campaign) -> Entries<'_, Structure> {
        campaign.structures()
    }
}
