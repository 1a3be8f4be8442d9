//! The reports of a campaign as rows of `report`.
ghost use Rattle.std.specs.Prelude.{refl};
ghost use Rattle.atl_descriptions.specs.Tables.{Reports};
ghost use Rattle.atl_sql.specs.Shown.{report_row};

use super::{Mapped, NumberedRow};
use atl_campaign::Campaign;
use atl_rows::parts::StoredReport;
use atl_sql::rows::{put, take_out_number};
use atl_world::{Entries, MarkedNumbers, Text};
use sqlite::{Alter, Error, Transaction, params};

impl NumberedRow for Text {
    ghost part = { Reports };

    ghost is_numbered = { tt };

    ghost line = { report_row };

    ghost numbered = { λ n v. refl };

    ghost values = { λ c. c.reports };

    ghost marks = { λ m. m.reports };

    ghost are_rows = { λ own c r. (λ is. is, λ is. is) };

    ghost are_marked = { λ m r. refl };

    fn find_value(campaign: &Campaign, number: u32) -> Option<&Text> {
        campaign.report(number)
    }

    fn marked_numbers(campaign: &Campaign) -> MarkedNumbers<'_> {
        campaign.marked_reports()
    }

    fn put<S: Alter>(&self, tx: &mut Transaction<'_, S>, number: u32) -> Result<(), Error> {
        put::<StoredReport, S>(tx, params![number, self.as_str()])
    }

    fn take_out<S: Alter>(tx: &mut Transaction<'_, S>, number: u32) -> Result<(), Error> {
        take_out_number::<StoredReport, S>(tx, number)
    }
}

impl Mapped for Text {
    fn all(campaign: &Campaign) -> Entries<'_, Text> {
        campaign.reports()
    }
}
