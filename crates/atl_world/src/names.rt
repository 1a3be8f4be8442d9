//! The rules for names and pass texts (passwords); `quoted` says whether a word is in quotes.
//! See docs/RULES.md, "Names and pass texts".
ghost use Rattle.std.specs.Prelude.{◌≡◌};
ghost use Rattle.std.specs.List.{list_all};
ghost use Rattle.atl_world.specs.Names.{name_ok, pass_ok, has_allowed_length, is_name_byte, is_pass_byte, has_no_edge_space};
ghost use Rattle.atl_world.specs.Lookup.{name_of};

use crate::letters::{QUOTE, SPACE, TILDE};
use crate::limits::MOST_NAME_BYTES;
use crate::lookup::letter_of;

fn has_allowed_length(text: &[u8]) -> bool
    ensures { result ≡ has_allowed_length text.now }
{
    1 <= text.len() && text.len() <= MOST_NAME_BYTES
}

fn is_name_byte(byte: u8) -> bool
    ensures { result ≡ is_name_byte byte }
{
    SPACE <= byte && byte <= TILDE && byte != QUOTE
}

fn is_pass_byte(byte: u8) -> bool
    ensures { result ≡ is_pass_byte byte }
{
    SPACE < byte && byte <= TILDE
}

/// True of an empty word.
fn has_no_edge_space(word: &[u8], quoted: bool) -> bool
    ensures { result ≡ has_no_edge_space (name_of word.now quoted) }
{
    if word.is_empty() {
        return true;
    }
    let first = letter_of(word[0], quoted);
    let last = letter_of(word[word.len() - 1], quoted);
    first != SPACE && last != SPACE
}

fn are_name_bytes(word: &[u8], quoted: bool) -> bool
    ensures { result ≡ list_all is_name_byte (name_of word.now quoted) }
{
    word.iter()
        .map(|byte| letter_of(*byte, quoted))
        .all(|byte| is_name_byte(byte))
}

fn are_pass_bytes(text: &[u8]) -> bool
    ensures { result ≡ list_all is_pass_byte text.now }
{
    text.iter().all(|byte| is_pass_byte(*byte))
}

/// Whether a word, with `_` as a space unless the word is quoted, keeps the rule of names. It takes
/// no memory. See docs/RULES.md, "Names and pass texts".
pub fn word_ok(word: &[u8], quoted: bool) -> bool
    ensures { result ≡ name_ok (name_of word.now quoted) }
{
    has_allowed_length(word) && has_no_edge_space(word, quoted) && are_name_bytes(word, quoted)
}

/// Whether a text keeps the rule of names: 1 to 40 bytes from 32 to 126, no quotation mark, and no
/// space at either end. It takes no memory. See docs/RULES.md, "Names and pass texts".
#[tactic(auto, using(crate::proofs::NameLaws::quoted_names_itself))]
pub fn name_ok(text: &[u8]) -> bool
    ensures { result ≡ name_ok text.now }
{
    word_ok(text, true)
}

/// Whether a text keeps the rule of pass texts: 1 to 40 bytes from 33 to 126. It takes no memory.
/// See docs/RULES.md, "Names and pass texts".
pub fn pass_ok(text: &[u8]) -> bool
    ensures { result ≡ pass_ok text.now }
{
    has_allowed_length(text) && are_pass_bytes(text)
}
