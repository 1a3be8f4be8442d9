//! Columns of numbers.
ghost use Rattle.std.proofs.Common.{sym};
ghost use Rattle.sqlite_value.specs.declared.value.Value.TheVariants.{Int as SqlInt};
ghost use Rattle.atl_columns.specs.Forms as forms;
ghost use Rattle.atl_columns.specs.FormLaws.{number_same, number_other};

use crate::form::Form;
use sqlite::types::ValueRef;
use sqlite_schema::schema::Kind;
use std::alloc::{AllocError, Global};

/// Any integer of 64 bits. Its range is for the rules of docs/FORMATS.md, "Rules of the tables".
#[derive(Clone, Copy)]
pub struct Number {}

impl Form for Number {
    type Value = i64;

    ghost form = { forms.Number };

    ghost encode = { λ n. SqlInt n };

    ghost decode = { λ v. forms.number_of v };

    ghost same = { λ v n is. number_same v n is };

    ghost typed = { λ v n is. (n, sym (number_same v n is)) };

    ghost other = { λ v is. number_other v is };

    fn decode(_alloc: Global, value: ValueRef<'_>) -> Result<Option<i64>, AllocError> {
        match value {
            ValueRef::Int(n) => Ok(Some(n)),
            _ => Ok(None),
        }
    }

    fn kind() -> Kind {
        Kind::Integer
    }
}
