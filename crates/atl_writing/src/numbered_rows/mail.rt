//! The mailings of a campaign as rows of `mail`. Each write is a step of a transaction on the ten
//! tables and a clean disk; an error is the database's.
ghost use Rattle.std.specs.Prelude.{refl};
ghost use Rattle.atl_descriptions.specs.Tables.{Mail, mail_table};
ghost use Rattle.atl_sql.specs.Shown.{mail_row};
ghost use Rattle.atl_sql.specs.Writes.{WritesRow};

use super::{Mapped, NumberedRow};
use atl_campaign::Campaign;
use atl_rows::parts::StoredMail;
use atl_sql::rows::{put, take_out_number};
use atl_world::{Entries, MarkedNumbers, Sequence};
use sqlite::{Alter, Error, Transaction, params};

/// Inserts the row of a faction's mailing into `mail`, or replaces the text of the faction's row.
pub(crate) fn put_mail<S: Alter>(
    tx: &mut Transaction<'_, S>,
    faction: u32,
    text: &[u8],
) -> Result<(), Error>
    ensures { WritesRow S.Store mail_table 1 (mail_row faction text.now) result tx.old.conn
        tx.new.conn }
{
    put::<StoredMail, S>(tx, params![faction, text])
}

impl NumberedRow for Sequence<u8> {
    ghost part = { Mail };

    ghost is_numbered = { tt };

    ghost line = { mail_row };

    ghost numbered = { λ n v. refl };

    ghost values = { λ c. c.mail };

    ghost marks = { λ m. m.mail };

    ghost are_rows = { λ own c r. (λ is. is, λ is. is) };

    ghost are_marked = { λ m r. refl };

    fn find_value(campaign: &Campaign, number: u32) -> Option<&Sequence<u8>> {
        campaign.mail_of(number)
    }

    fn marked_numbers(campaign: &Campaign) -> MarkedNumbers<'_> {
        campaign.marked_mail()
    }

    fn put<S: Alter>(&self, tx: &mut Transaction<'_, S>, number: u32) -> Result<(), Error> {
        put_mail(tx, number, self.as_slice())
    }

    fn take_out<S: Alter>(tx: &mut Transaction<'_, S>, number: u32) -> Result<(), Error> {
        take_out_number::<StoredMail, S>(tx, number)
    }
}

impl Mapped for Sequence<u8> {
    fn all(campaign: &Campaign) -> Entries<'_, Sequence<u8>> {
        campaign.mail()
    }
}
