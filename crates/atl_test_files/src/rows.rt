//! Inserts the rows of a campaign into the nine tables of the first format.
use atl_campaign::Parts;
use atl_campaign::parts::{
    StoredBooks, StoredCampaignRow, StoredFaction, StoredHas, StoredMail, StoredRegion,
    StoredReport, StoredStructure, StoredUnit,
};
use sqlite::{Alter, Connection, Error, params};

trait Put {
    /// Inserts the row; the result is how many rows were inserted.
    fn put<S: Alter>(&self, conn: &mut Connection<S>) -> Result<usize, Error>;
}

/// Inserts a faction; its names and its pass text, which are bytes, are cast to TEXT.
impl Put for StoredFaction {
    fn put<S: Alter>(&self, conn: &mut Connection<S>) -> Result<usize, Error> {
        conn.execute(
            "INSERT INTO faction VALUES (?1, CAST(?2 AS TEXT), CAST(?3 AS TEXT), CAST(?4 AS TEXT), ?5)",
            params![
                self.number,
                self.joined_as.as_slice(),
                self.name.as_slice(),
                self.pass.as_slice(),
                self.gone
            ],
        )
    }
}

impl Put for StoredRegion {
    fn put<S: Alter>(&self, conn: &mut Connection<S>) -> Result<usize, Error> {
        conn.execute(
            "INSERT INTO region VALUES (?1, ?2, ?3)",
            params![self.number, self.peasants, self.money],
        )
    }
}

/// Inserts a unit without its goods; its name, which is bytes, is cast to TEXT.
impl Put for StoredUnit {
    fn put<S: Alter>(&self, conn: &mut Connection<S>) -> Result<usize, Error> {
        conn.execute(
            "INSERT INTO unit VALUES (?1, ?2, CAST(?3 AS TEXT), ?4, ?5, ?6, ?7, ?8)",
            params![
                self.number,
                self.faction,
                self.name.as_slice(),
                self.region,
                self.structure,
                self.men,
                self.money,
                self.guard
            ],
        )
    }
}

impl Put for StoredHas {
    fn put<S: Alter>(&self, conn: &mut Connection<S>) -> Result<usize, Error> {
        conn.execute(
            "INSERT INTO has VALUES (?1, ?2, ?3, ?4)",
            params![self.unit, self.sort, self.thing, self.amount],
        )
    }
}

/// Inserts a structure; its name, which is bytes, is cast to TEXT.
impl Put for StoredStructure {
    fn put<S: Alter>(&self, conn: &mut Connection<S>) -> Result<usize, Error> {
        conn.execute(
            "INSERT INTO structure VALUES (?1, ?2, CAST(?3 AS TEXT), ?4, ?5, ?6)",
            params![
                self.number,
                self.kind,
                self.name.as_slice(),
                self.region,
                self.done,
                self.owner
            ],
        )
    }
}

/// Inserts a faction's mailing, as bytes.
impl Put for StoredMail {
    fn put<S: Alter>(&self, conn: &mut Connection<S>) -> Result<usize, Error> {
        conn.execute(
            "INSERT INTO mail VALUES (?1, ?2)",
            params![self.faction, self.text.as_slice()],
        )
    }
}

/// Inserts a faction's report, as text.
impl Put for StoredReport {
    fn put<S: Alter>(&self, conn: &mut Connection<S>) -> Result<usize, Error> {
        conn.execute(
            "INSERT INTO report VALUES (?1, ?2)",
            params![self.faction, self.text.as_str()],
        )
    }
}

impl Put for StoredBooks {
    fn put<S: Alter>(&self, conn: &mut Connection<S>) -> Result<usize, Error> {
        conn.execute(
            "INSERT INTO books VALUES (?1, ?2, ?3)",
            params![self.entry, self.thing, self.amount],
        )
    }
}

fn put_each<S: Alter, T: Put>(conn: &mut Connection<S>, rows: &[T]) -> Result<(), Error> {
    for row in rows {
        row.put(conn)?;
    }
    Ok(())
}

fn put_campaign_rows<S: Alter>(
    conn: &mut Connection<S>,
    world: &str,
    heads: &[StoredCampaignRow],
) -> Result<(), Error> {
    for head in heads {
        conn.execute(
            "INSERT INTO campaign VALUES (?1, ?2, ?3, ?4, ?5, ?6, CAST(?7 AS TEXT), ?8)",
            params![
                head.id,
                head.format,
                head.month,
                head.next_faction,
                head.next_unit,
                head.next_structure,
                head.pass.as_slice(),
                world
            ],
        )?;
    }
    Ok(())
}

fn put_places<S: Alter>(conn: &mut Connection<S>, parts: &Parts) -> Result<(), Error> {
    put_each(conn, parts.regions.as_slice())?;
    put_each(conn, parts.units.as_slice())?;
    put_each(conn, parts.has.as_slice())?;
    put_each(conn, parts.structures.as_slice())
}

pub(crate) fn put_all<S: Alter>(
    conn: &mut Connection<S>,
    world: &str,
    parts: &Parts,
) -> Result<(), Error> {
    put_campaign_rows(conn, world, parts.campaign.as_slice())?;
    put_places(conn, parts)?;
    put_each(conn, parts.factions.as_slice())?;
    put_each(conn, parts.mail.as_slice())?;
    put_each(conn, parts.reports.as_slice())?;
    put_each(conn, parts.books.as_slice())
}
