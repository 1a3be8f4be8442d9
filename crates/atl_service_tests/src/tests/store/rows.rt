//! Prints the rows of each table as the store reads them: columns separated by blanks, rows by
//! commas.
use super::campaigns::world_text;
use super::words::text_of;
use atl_campaign::parts::{
    StoredBooks, StoredFaction, StoredHas, StoredMail, StoredMarket, StoredRegion, StoredReport,
    StoredStructure, StoredUnit,
};
use atl_store::rows::campaign::StoredCampaign;
use atl_store::rows::{RowWithId, Stored};
use sqlite::{Alter, Connection};
use std::alloc::{AllocError, Global};
use std::test::Fail;

fn quote(alloc: Global, bytes: &[u8]) -> Result<String, AllocError> {
    match str::from_utf8(bytes) {
        Ok(text) => format!(in alloc; "{text:?}"),
        Err(_) => format!(in alloc; "{bytes:?}"),
    }
}

trait PrintableRow {
    /// The row's columns as text, with blanks between them; texts are in quotation marks.
    fn columns_text(&self, alloc: Global) -> Result<String, AllocError>;
}

/// Prints the campaign row: its id, format, month, next numbers of a faction, a unit and a
/// structure, the pass text, and `small` or `another world` for the world text.
impl PrintableRow for StoredCampaign {
    fn columns_text(&self, alloc: Global) -> Result<String, AllocError> {
        let head = &self.head;
        let pass = quote(alloc, head.pass.as_slice())?;
        let is_small = self.world.as_str() == world_text("small");
        let world = if is_small { "small" } else { "another world" };
        let numbers = format!(in alloc; "{} {} {}", head.id, head.format, head.month)?;
        let next = format!(in alloc;
            "{} {} {}",
            head.next_faction, head.next_unit, head.next_structure
        )?;
        format!(in alloc; "{numbers} {next} {pass} {world}")
    }
}

/// Prints a faction: its number, the name under which it joined, its name, its pass text, and 1 if
/// gone.
impl PrintableRow for StoredFaction {
    fn columns_text(&self, alloc: Global) -> Result<String, AllocError> {
        let joined_as = quote(alloc, self.joined_as.as_slice())?;
        let name = quote(alloc, self.name.as_slice())?;
        let pass = quote(alloc, self.pass.as_slice())?;
        format!(in alloc; "{} {joined_as} {name} {pass} {}", self.number, self.gone)
    }
}

impl PrintableRow for StoredRegion {
    fn columns_text(&self, alloc: Global) -> Result<String, AllocError> {
        format!(in alloc; "{} {} {}", self.number, self.peasants, self.money)
    }
}

/// Prints a unit: its number, faction, name, region, structure, men, money, and 1 if its guard flag
/// is on.
impl PrintableRow for StoredUnit {
    fn columns_text(&self, alloc: Global) -> Result<String, AllocError> {
        let name = quote(alloc, self.name.as_slice())?;
        let place = format!(in alloc; "{} {}", self.region, self.structure)?;
        let holding = format!(in alloc; "{} {} {}", self.men, self.money, self.guard)?;
        format!(in alloc; "{} {} {name} {place} {holding}", self.number, self.faction)
    }
}

/// Prints an item or a skill of a unit: the unit, 0 for an item or 1 for a skill, its number, the
/// amount.
impl PrintableRow for StoredHas {
    fn columns_text(&self, alloc: Global) -> Result<String, AllocError> {
        format!(in alloc;
            "{} {} {} {}",
            self.unit, self.sort, self.thing, self.amount
        )
    }
}

/// Prints a structure: its number, kind, name, region, how much is done, and its owner.
impl PrintableRow for StoredStructure {
    fn columns_text(&self, alloc: Global) -> Result<String, AllocError> {
        let name = quote(alloc, self.name.as_slice())?;
        let work = format!(in alloc; "{} {} {}", self.region, self.done, self.owner)?;
        format!(in alloc; "{} {} {name} {work}", self.number, self.kind)
    }
}

impl PrintableRow for StoredMail {
    fn columns_text(&self, alloc: Global) -> Result<String, AllocError> {
        let text = quote(alloc, self.text.as_slice())?;
        format!(in alloc; "{} {text}", self.faction)
    }
}

impl PrintableRow for StoredReport {
    fn columns_text(&self, alloc: Global) -> Result<String, AllocError> {
        format!(in alloc; "{} {:?}", self.faction, self.text.as_str())
    }
}

/// Prints an amount of the books: the numbers of its entry and its thing, and the amount.
impl PrintableRow for StoredBooks {
    fn columns_text(&self, alloc: Global) -> Result<String, AllocError> {
        format!(in alloc; "{} {} {}", self.entry, self.thing, self.amount)
    }
}

impl PrintableRow for StoredMarket {
    fn columns_text(&self, alloc: Global) -> Result<String, AllocError> {
        format!(in alloc; "{} {} {}", self.region, self.item, self.stock)
    }
}

/// Prints a row that was read with its rowid: the columns of the row, without the rowid.
impl<T: PrintableRow> PrintableRow for RowWithId<T> {
    fn columns_text(&self, alloc: Global) -> Result<String, AllocError> {
        self.row.columns_text(alloc)
    }
}

fn rows_text<T: PrintableRow>(alloc: Global, rows: &[T]) -> Result<String, AllocError> {
    if rows.is_empty() {
        return String::from_str(alloc, "nothing");
    }
    let mut text = String::new(alloc);
    for (index, row) in rows.iter().enumerate() {
        if index > 0 {
            text.push_str(", ")?;
        }
        text.push_str(row.columns_text(alloc)?.as_str())?;
    }
    Ok(text)
}

fn rows_of<T: PrintableRow + Stored, S: Alter>(
    alloc: Global,
    conn: &mut Connection<S>,
) -> Result<String, Fail> {
    if !conn.is_autocommit() {
        return Err(Fail::new("a transaction is open"));
    }
    match T::read(alloc, conn) {
        Ok(rows) => Ok(rows_text(alloc, &rows)?),
        Err(fault) => text_of(alloc, fault),
    }
}

pub(crate) fn read<S: Alter>(
    alloc: Global,
    conn: &mut Connection<S>,
    table: &str,
) -> Result<String, Fail> {
    match table {
        "campaign" => rows_of::<StoredCampaign, S>(alloc, conn),
        "faction" => rows_of::<StoredFaction, S>(alloc, conn),
        "region" => rows_of::<StoredRegion, S>(alloc, conn),
        "unit" => rows_of::<StoredUnit, S>(alloc, conn),
        "has" => rows_of::<RowWithId<StoredHas>, S>(alloc, conn),
        "structure" => rows_of::<StoredStructure, S>(alloc, conn),
        "mail" => rows_of::<StoredMail, S>(alloc, conn),
        "report" => rows_of::<StoredReport, S>(alloc, conn),
        "books" => rows_of::<RowWithId<StoredBooks>, S>(alloc, conn),
        "market" => rows_of::<RowWithId<StoredMarket>, S>(alloc, conn),
        _ => Err(Fail::new("a table")),
    }
}
