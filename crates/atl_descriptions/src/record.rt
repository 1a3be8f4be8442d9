//! The traits of records that are rows of a table of a campaign.
ghost use Rattle.std.specs.Prelude.{◌≡◌, ◌<◌, ◌^◌, IfOk, IfSome, None, length, map};
ghost use Rattle.atl_columns.specs.Fields.{columns_from, strict_columns};
ghost use Rattle.atl_columns.specs.Forms.{IsTyped};
ghost use Rattle.atl_descriptions.specs.PartSelects.{select_of_part};
ghost use Rattle.atl_descriptions.specs.Statements.{column_names, deletion, upsert};
ghost use Rattle.atl_descriptions.specs.Tables.{IsWrittenPart, Part, creation_of, key_width_of, table_of};
ghost use Rattle.atl_descriptions.specs.Described.{IsIndexOf, checks_of, unique_columns};

use crate::table::{Statements, Table};
use atl_columns::Fields;
use sqlite::Row;
use std::alloc::{AllocError, Global};

/// A record that is a row of a table of a campaign, as it is stored, whoever wrote it.
pub trait Record: Drop + Sized {
    /// The forms of the columns, in their order.
    type Fields: Fields;

    // The part of a campaign whose table it is.
    ghost part: { Part };

    // The record of the fields of a row, and the fields of a record.
    ghost of_fields: { Self.Fields.Value → Self };

    ghost to_fields: { Self → Self.Fields.Value };

    /// The table, with its keys and check, the text that makes it, its first format and its SELECT.
    fn table() -> Table
        ensures tree { result.tree ≡ (table_of part).tree }
        ensures name { result.name.now ≡ (table_of part).name }
        ensures names { map (λ n. n.now) result.names.now ≡ column_names (table_of part) }
        ensures number { result.number ≡ (table_of part).key }
        ensures primary { result.primary.now ≡ (table_of part).primary }
        ensures unique { unique_columns result.unique ≡ (table_of part).uniques }
        ensures index { IfSome result.unique (IsIndexOf (table_of part)) }
        ensures single { checks_of result.is_single ≡ (table_of part).checks }
        ensures create { result.create.now ≡ creation_of part }
        ensures since { result.since ≡ (select_of_part part).since }
        ensures select { result.select.now ≡ (select_of_part part).select };

    /// The record that has these fields.
    fn of_fields(fields: <Self::Fields as Fields>::Value) -> Self
        ensures { result ≡ of_fields fields };

    /// The record that the first columns of a row are read as; None if a value is of another form
    /// than its column. AllocError without memory.
    final fn read_columns(alloc: Global, row: &Row) -> Result<Option<Self>, AllocError>
        ensures ok { IfOk result (λ read. IfSome read
            (λ one. Self.Fields.encode (to_fields one) ≡ columns_from 0 (length Self.Fields.forms) row.now)) }
        ensures typed { IfOk result (λ read. IfSome read (λ _. IsTyped Self.Fields.forms row.now)) }
        ensures other { IfOk result (λ read. read ≡ None → ¬ IsTyped Self.Fields.forms row.now) }
    {
        match Self::Fields::decode(alloc, row, 0)? {
            Some(fields) => Ok(Some(Self::of_fields(fields))),
            None => Ok(None),
        }
    }

    // A row has fewer columns than there are numbers of 32 bits.
    ghost is_narrow: { length Self.Fields.forms < 2 ^ 32 };

    // The columns of the table are those of the fields.
    ghost has_columns: { (table_of part).columns ≡ strict_columns Self.Fields.forms (column_names (table_of part)) };

    ghost is_wide: { length (column_names (table_of part)) ≡ length Self.Fields.forms };

    // The fields that a record was made of are the record's fields.
    ghost again: { (x : Self.Fields.Value) → to_fields (of_fields x) ≡ x };
}

/// A record whose row is put by its key, and deleted by it: a row of any table but `campaign`.
pub trait Written: Record {
    /// The texts that put a row and delete one.
    fn statements() -> Statements
        ensures upsert { result.upsert.now ≡ upsert (table_of Self.part) (key_width_of Self.part) }
        ensures delete { result.delete.now ≡ deletion (table_of Self.part) (key_width_of Self.part) };

    ghost is_written: { IsWrittenPart Self.part };
}
