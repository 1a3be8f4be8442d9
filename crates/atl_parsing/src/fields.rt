//! Looks up the header fields of a request by name. `fields` says where in `bytes` the name and the
//! value of each begin and end; all are within `bytes`.
ghost use Rattle.std.specs.Prelude.{◌≡◌, All, length, option_map};
ghost use Rattle.std.specs.Str.{str_eq_ignore_ascii_case};
ghost use Rattle.httparse.specs.Spans.{IsHeaderWithin};
ghost use Rattle.atl_parsing.specs.Fields.{values_of, single_value};
ghost use Rattle.atl_parsing.specs.Finding.{HasValues, add_value, field_pairs};

use httparse::spans::{HeaderSpan, Span};

/// The result of a lookup by name: no field, one field with the span of its value, or several.
#[derive(Drop, Clone, Copy)]
pub(crate) enum FieldLookup {
    Nowhere,
    Once(Span),
    Several,
}

fn is_same(name: &[u8], other: &[u8]) -> bool
    ensures { result ≡ str_eq_ignore_ascii_case name.now other.now }
{
    name.eq_ignore_ascii_case(other)
}

fn add_value(found: FieldLookup, value: Span) -> FieldLookup
    ensures { result ≡ add_value found value }
{
    match found {
        FieldLookup::Nowhere => FieldLookup::Once(value),
        FieldLookup::Once(_) | FieldLookup::Several => FieldLookup::Several,
    }
}

/// Says whether no field has this name, exactly one (and where in `bytes` its value is), or
/// several, ignoring ASCII case.
#[tactic(auto, unfolding(crate::specs::Fields::values_of))]
pub fn find_value(bytes: &[u8], fields: &[HeaderSpan], name: &[u8]) -> FieldLookup
    requires { All (IsHeaderWithin (length bytes.now)) fields.now }
    ensures { HasValues bytes.now result (values_of name.now (field_pairs bytes.now fields.now)) }
{
    let mut found = FieldLookup::Nowhere;
    for field in fields {
        if is_same(field.name.of(bytes), name) {
            found = add_value(found, field.value);
        }
    }
    found
}

/// The value of the field of this name, if exactly one field has the name, ignoring ASCII case;
/// else None.
pub(crate) fn only_value<'a>(
    bytes: &'a [u8],
    fields: &[HeaderSpan],
    name: &[u8],
) -> Option<&'a [u8]>
    requires { All (IsHeaderWithin (length bytes.now)) fields.now }
    ensures { option_map (λ value. value.now) result
        ≡ single_value (values_of name.now (field_pairs bytes.now fields.now)) }
{
    match find_value(bytes, fields, name) {
        FieldLookup::Once(value) => Some(value.of(bytes)),
        FieldLookup::Nowhere | FieldLookup::Several => None,
    }
}
