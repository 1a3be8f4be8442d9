//! Tests of which texts may be a name, and which a pass text (docs/RULES.md, "Names and pass
//! texts").
use atl_world::{name_ok, pass_ok};
use std::process::Abort;

/// A text of 40 bytes, the most that a name may have, without a space.
const FORTY: &str = "1234567890123456789012345678901234567890";

/// A text of 40 bytes, the most that a name may have, with spaces.
const SPACED: &str = "123456789 123456789 123456789 1234567890";

/// A text of 41 bytes, one more than a name may have.
const FORTY_ONE: &str = "12345678901234567890123456789012345678901";

/// Texts, whether each may be a name, and whether it may be a pass text.
static TEXTS: [(&str, bool, bool); 26] = [
    ("", false, false),
    ("a", true, true),
    (FORTY, true, true),
    (SPACED, true, false),
    (FORTY_ONE, false, false),
    (" ", false, false),
    (" a", false, false),
    ("a ", false, false),
    ("a b", true, false),
    ("a  b", true, false),
    ("\"", false, true),
    ("a\"b", false, true),
    ("\"a", false, true),
    ("!", true, true),
    ("#", true, true),
    ("~", true, true),
    ("a~", true, true),
    ("_", true, true),
    ("\x7f", false, false),
    ("a\x7fb", false, false),
    ("\x1f", false, false),
    ("a\x1fb", false, false),
    ("a\tb", false, false),
    ("a\n", false, false),
    ("a\0", false, false),
    ("\u{e9}", false, false),
];

fn assert_name_texts(rt: &impl Abort, rows: &[(&str, bool, bool)]) {
    for (text, name, pass) in rows.iter() {
        let actual = (name_ok(text.as_bytes()), pass_ok(text.as_bytes()));
        assert!(rt; actual.0 == *name && actual.1 == *pass, "{text}");
    }
}

#[test]
fn names_and_pass_texts(rt: HostRuntime) {
    assert_name_texts(&rt, &TEXTS);
}
