//! The form of one column.
ghost use Rattle.std.specs.Prelude.{◌≡◌, Option, Some, None, IfOk};
ghost use Rattle.sqlite_value.specs.declared.value.Value.{Value as SqlValue};
ghost use Rattle.sqlite_value.specs.Value.{owned};
ghost use Rattle.atl_columns.specs.Forms.{Form as ColumnForm, HasForm, kind_of};

use sqlite::types::ValueRef;
use sqlite_schema::schema::Kind;
use std::alloc::{AllocError, Global};

/// How a field of a record is kept in a column. Each form has one type of field, and one field for
/// each value of SQL that it reads.
pub trait Form {
    type Value: Drop;

    ghost form: { ColumnForm };

    // The field as a value of SQL.
    ghost encode: { Self.Value → SqlValue };

    // The field that a value of SQL is read as; None for a value of another form.
    ghost decode: { SqlValue → Option Self.Value };

    /// The field that a value is read as; None if it is of another form. AllocError without memory.
    fn decode(alloc: Global, value: ValueRef<'_>) -> Result<Option<Self::Value>, AllocError>
        ensures { IfOk result (λ read. read ≡ decode (owned value.entry)) };

    /// The type that a STRICT table gives the column.
    fn kind() -> Kind
        ensures { result ≡ kind_of form };

    // A field that was read is written as the value that it was read of.
    ghost same: { (v : SqlValue) (x : Self.Value) → decode v ≡ Some x → encode x ≡ v };

    // Exactly the values of the form are read.
    ghost typed: { (v : SqlValue) (x : Self.Value) → decode v ≡ Some x → HasForm form v };

    ghost other: { (v : SqlValue) → decode v ≡ None → ¬ HasForm form v };
}
