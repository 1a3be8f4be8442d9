//! The columns of a table in their order, as one form: pairs of a first column and the others.
ghost use Rattle.std.specs.Prelude.{◌≡◌, ◌+◌, ◌<◌, ◌^◌, ℕ, ◌↔◌, IsTrue, List, map, length, Option, Some, None, [], ◌∷◌, IfOk};
ghost use Rattle.sqlite_value.specs.Value.{owned};
ghost use Rattle.sqlite_value.specs.Order.{Row as SqlRow, column};
ghost use Rattle.atl_columns.specs.Forms.{Form as ColumnForm, IsTypedFrom};
ghost use Rattle.atl_columns.specs.Fields.{strict_column, strict_columns, columns_from, encode_then, decode_then, decode_end};
ghost use Rattle.atl_columns.specs.FieldLaws.{then_same, then_typed, then_other, end_same, end_other};

use crate::form::Form;
use sqlite::Row;
use sqlite::types::{Value, ValueRef};
use sqlite_schema::schema::{Column, Kind};
use sqlite_value::keys::Collation;
use std::alloc::{AllocError, Global};

/// How the fields of a record are kept in the columns of a row.
pub trait Fields {
    type Value: Drop;

    ghost forms: { List ColumnForm };

    // The fields as a row, and the fields that a row is read as; None for a row of other forms.
    ghost encode: { Self.Value → SqlRow };

    ghost decode: { SqlRow → Option Self.Value };

    /// Whether the columns found have just these names, one for each form, with the forms' types.
    /// All must be STRICT and NOT NULL, have no default, and compare texts by their bytes.
    fn are_columns(found: &[Column], names: &[&str]) -> bool
        requires { length names.now ≡ length forms }
        ensures { IsTrue result ↔ (found.now ≡ strict_columns forms (map (λ n. n.now) names.now)) };

    /// The fields of a row from the column `at` on; None if a value is of another form, as is NULL,
    /// which stands past the row's end. The columns end below 2^32. AllocError without memory.
    fn decode(alloc: Global, row: &Row, at: usize) -> Result<Option<Self::Value>, AllocError>
        requires { at + length forms < 2 ^ 32 }
        ensures { IfOk result
            (λ read. read ≡ decode (columns_from at (length forms) row.now)) };

    // Fields that were read are written as the row that they were read of.
    ghost same: { (row : SqlRow) (x : Self.Value) → decode row ≡ Some x → encode x ≡ row };

    // Of the columns from `at` on, exactly those whose values have the forms are read.
    ghost typed: { (row : SqlRow) (at : ℕ) (x : Self.Value) → decode (columns_from at (length forms) row) ≡ Some x → IsTypedFrom at forms row };

    ghost other: { (row : SqlRow) (at : ℕ) → decode (columns_from at (length forms) row) ≡ None → ¬ IsTypedFrom at forms row };
}

fn is_strict_column(column: &Column, name: &[u8], kind: Kind) -> bool
    ensures { IsTrue result ↔ (column.now ≡ strict_column name.now kind) }
{
    column.name.as_slice() == name
        && column.kind == kind
        && column.is_strict
        && column.not_null
        && matches!(column.default, Value::Null)
        && column.collation == Collation::Binary
}

/// The value in a column, and NULL past the end of the row.
pub fn value_at(row: &Row, at: usize) -> ValueRef<'_>
    ensures { owned result ≡ column row.now at }
{
    match row.get_ref(at) {
        Ok(value) => value,
        Err(_) => ValueRef::Null,
    }
}

impl Fields for () {
    type Value = ();

    ghost forms = { [] };

    ghost encode = { λ x. [] };

    ghost decode = { λ row. decode_end row };

    ghost same = { λ row x is. end_same row x is };

    ghost typed = { λ row at x is. tt };

    ghost other = { λ row at is typed. end_other is };

    fn are_columns(found: &[Column], _names: &[&str]) -> bool {
        found.is_empty()
    }

    fn decode(_alloc: Global, _row: &Row, _at: usize) -> Result<Option<()>, AllocError> {
        Ok(Some(()))
    }
}

impl<A: Form, B: Fields> Fields for (A, B) {
    type Value = (A::Value, B::Value);

    ghost forms = { A.Form.form ∷ B.Fields.forms };

    ghost encode = { λ x. encode_then A.Form.encode B.Fields.encode x };

    ghost decode = { λ row. decode_then A.Form.decode B.Fields.decode row };

    ghost same = { λ row x is. then_same A.Form.encode A.Form.decode B.Fields.encode B.Fields.decode row x
        (λ v here. A.Form.same v x.0 here) (λ vs here. B.Fields.same vs x.1 here) is };

    ghost typed = { λ row at x is. then_typed A.Form.decode B.Fields.decode A.Form.form B.Fields.forms row at x
        (λ here. A.Form.typed (column row at) x.0 here) (λ here. B.Fields.typed row (at + 1) x.1 here) is };

    ghost other = { λ row at is. then_other A.Form.decode B.Fields.decode A.Form.form B.Fields.forms row at
        (λ here. A.Form.other (column row at) here) (λ here. B.Fields.other row (at + 1) here) is };

    fn are_columns(found: &[Column], names: &[&str]) -> bool {
        match found {
            [column, columns @ ..] => {
                is_strict_column(column, names[0].as_bytes(), A::kind())
                    && B::are_columns(columns, &names[1..])
            }
            [] => false,
        }
    }

    fn decode(
        alloc: Global,
        row: &Row,
        at: usize,
    ) -> Result<Option<(A::Value, B::Value)>, AllocError> {
        let Some(first) = A::decode(alloc, value_at(row, at))? else {
            return Ok(None);
        };
        match B::decode(alloc, row, at + 1)? {
            Some(rest) => Ok(Some((first, rest))),
            None => Ok(None),
        }
    }
}
