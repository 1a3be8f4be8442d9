//! Creates the tables and writes a whole campaign into them. See docs/FORMATS.md, "Tables".
ghost use Rattle.std.specs.Prelude.{◌≡◌, ◌≤◌, IsTrue, OnOk, OnErr, IfErr, ◌↔◌};
ghost use Rattle.sqlite.specs.Held.{state};
ghost use Rattle.atl_descriptions.specs.Tables.{no_tables};
ghost use Rattle.atl_records.specs.Limits.{most_things};
ghost use Rattle.atl_campaign.specs.Marks.{no_marks};
ghost use Rattle.atl_sql.specs.Making.{has_campaign};
ghost use Rattle.atl_keeping.specs.Keeps.{Creates, IsReadyToCreate, RefusesToCreate, IsLater};

use atl_campaign::Campaign;
use atl_keeping::CreateFault;
use atl_writing::write_founding;
use sqlite::{Alter, Connection};
use sqlite_schema::schema::Schema;

fn has_campaign_table(schema: &Schema) -> bool
    ensures { result ≡ has_campaign schema.now }
{
    let mut tables = schema.tables.as_slice().iter();
    tables.any(|table| table.name.as_slice() == b"campaign".as_slice())
}

fn is_blank(schema: &Schema) -> bool
    ensures { IsTrue result ↔ (schema.now ≡ no_tables) }
{
    schema.tables.as_slice().is_empty()
        && schema.indexes.as_slice().is_empty()
        && schema.views.as_slice().is_empty()
}

/// Whether the schema has nothing and the connection is in no transaction; then, while it is open,
/// all is committed.
fn is_ready<S: Alter>(conn: &Connection<S>) -> bool
    ensures ready { IsTrue result ↔ (IsReadyToCreate (state S.Store conn.now)) }
    ensures settled { IsTrue result → IsTrue (state S.Store conn.now).is_open
        → (state S.Store conn.now).now ≡ (state S.Store conn.now).committed }
{
    is_blank(conn.schema()) && conn.is_autocommit()
}

/// Makes the tables and writes the whole campaign with this world text, in one transaction. The
/// books may have no more things than a world can have. With Ok the connection holds the campaign,
/// of which nothing is marked any more, and no table `campaign` was there. NotEmpty: a table
/// `campaign` is there, and nothing is changed. Store: the connection is in a transaction or the
/// database has other tables, an index, a view or a trigger, and nothing is changed; or it gives an
/// error that is not lack of memory. Memory: the database says that it has none. After Store and
/// Memory the tables are as they were while the connection is open, and a crash leaves what it left
/// before or the campaign. After any fault the marks are as they were. What the tables hold, and
/// what a crash leaves, is promised on a clean disk (docs/PROVED.md, "Premises"). See
/// docs/FORMATS.md, "Tables".
pub fn create<S: Alter>(
    conn: &mut Connection<S>,
    world_text: &str,
    campaign: &mut Campaign,
) -> Result<(), CreateFault>
    requires { campaign.old.value.books.things ≤ most_things }
    ensures ok { OnOk result (Creates S.Store world_text.now campaign.old.value conn.old conn.new) }
    ensures err { IfErr result
        (RefusesToCreate S.Store world_text.now campaign.old.value conn.old conn.new) }
    ensures later { IsLater (state S.Store conn.old) (state S.Store conn.new) }
    ensures unmarked { OnOk result (campaign.new ≡ record campaign.old { marks = no_marks }) }
    ensures unchanged { OnErr result (campaign.new ≡ campaign.old) }
{
    if has_campaign_table(conn.schema()) {
        return Err(CreateFault::NotEmpty);
    }
    if !is_ready(conn) {
        return Err(CreateFault::Store);
    }
    write_founding(conn, world_text, campaign)?;
    campaign.unmark();
    Ok(())
}
