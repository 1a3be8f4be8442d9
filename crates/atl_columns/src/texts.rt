//! Columns of texts, as bytes or as UTF-8, and columns of bytes.
ghost use Rattle.std.specs.Prelude.{◌≡◌, IfOk};
ghost use Rattle.std.proofs.Common.{sym};
ghost use Rattle.sqlite_value.specs.declared.value.Value.TheVariants.{Text as SqlText, Blob as SqlBlob};
ghost use Rattle.atl_columns.specs.Forms as forms;
ghost use Rattle.atl_columns.specs.FormLaws.{text_same, text_other, utf8_text_same, utf8_text_typed, utf8_text_other, bytes_same, bytes_other};

use crate::form::Form;
use atl_world::{Sequence, Text};
use sqlite::types::ValueRef;
use sqlite_schema::schema::Kind;
use std::alloc::{AllocError, Global};

/// Any text, as its bytes, UTF-8 or not: a name or a pass text, which a later rule judges.
#[derive(Clone, Copy)]
pub struct TextBytes {}

impl Form for TextBytes {
    type Value = Sequence<u8>;

    ghost form = { forms.TextBytes };

    ghost encode = { λ t. SqlText t };

    ghost decode = { λ v. forms.text_of v };

    ghost same = { λ v t is. text_same v t is };

    ghost typed = { λ v t is. (t, sym (text_same v t is)) };

    ghost other = { λ v is. text_other v is };

    fn decode(alloc: Global, value: ValueRef<'_>) -> Result<Option<Sequence<u8>>, AllocError> {
        match value {
            ValueRef::Text(text) => Ok(Some(Sequence::from_slice(alloc, text)?)),
            _ => Ok(None),
        }
    }

    fn kind() -> Kind {
        Kind::Text
    }
}

/// A text of UTF-8.
#[derive(Clone, Copy)]
pub struct Utf8Text {}

fn utf8_text(alloc: Global, bytes: &[u8]) -> Result<Option<Text>, AllocError>
    ensures { IfOk result (λ read. read ≡ forms.if_utf8 bytes.now) }
{
    match std::str::from_utf8(bytes) {
        Ok(text) => Ok(Some(Text::from_str(alloc, text)?)),
        Err(_) => Ok(None),
    }
}

impl Form for Utf8Text {
    type Value = Text;

    ghost form = { forms.Utf8Text };

    ghost encode = { λ t. SqlText t };

    ghost decode = { λ v. forms.utf8_text_of v };

    ghost same = { λ v t is. utf8_text_same v t is };

    ghost typed = { λ v t is. utf8_text_typed v t is };

    ghost other = { λ v is. utf8_text_other v is };

    fn decode(alloc: Global, value: ValueRef<'_>) -> Result<Option<Text>, AllocError> {
        match value {
            ValueRef::Text(text) => utf8_text(alloc, text),
            _ => Ok(None),
        }
    }

    fn kind() -> Kind {
        Kind::Text
    }
}

/// Any bytes.
#[derive(Clone, Copy)]
pub struct Bytes {}

impl Form for Bytes {
    type Value = Sequence<u8>;

    ghost form = { forms.Bytes };

    ghost encode = { λ b. SqlBlob b };

    ghost decode = { λ v. forms.bytes_of v };

    ghost same = { λ v b is. bytes_same v b is };

    ghost typed = { λ v b is. (b, sym (bytes_same v b is)) };

    ghost other = { λ v is. bytes_other v is };

    fn decode(alloc: Global, value: ValueRef<'_>) -> Result<Option<Sequence<u8>>, AllocError> {
        match value {
            ValueRef::Blob(bytes) => Ok(Some(Sequence::from_slice(alloc, bytes)?)),
            _ => Ok(None),
        }
    }

    fn kind() -> Kind {
        Kind::Blob
    }
}
