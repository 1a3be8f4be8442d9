//! Splits a line into its words. See docs/RULES.md, "Reading a mailing".

ghost use Rattle.std.specs.Prelude.{◌≡◌, ◌≤◌, ◌<◌, ◌∷◌, [], MatchOption, IfSome, length, slice_index, false};
ghost use Rattle.std.specs.List.{position};
ghost use Rattle.atl_world.specs.Letters.{quote};
ghost use Rattle.atl_words.specs.Limits.{most_number};
ghost use Rattle.atl_words.specs.Words.{is_quote, is_blank, ends_word, words, begins, number_of};
ghost use Rattle.atl_words.specs.WordViews.{word_text};
ghost use Rattle.atl_words.specs.Positions.{IsPartOf, EndsWith};

use crate::letters::{SEMICOLON, TAB};
use atl_world::letters::{QUOTE, SPACE};

/// A word of a line: a part of the line without blanks, or in quotes.
#[derive(Drop, Clone, Copy)]
pub struct Word<'a> {
    /// The word's bytes, without the quotes around them.
    pub bytes: &'a [u8],
    pub quoted: bool,
    /// How many bytes the line has from the word's first byte to the line's end.
    pub to_end: usize,
}

/// The rest of a line that is left to read, and where it is in its text.
#[derive(Drop, Clone, Copy)]
pub struct Cursor<'a> {
    pub text: &'a [u8],
    pub rest: &'a [u8],
    /// The index in the text at which the line ends.
    pub end: usize,
}

fn first_quote(bytes: &[u8]) -> Option<usize>
    ensures { result ≡ position is_quote bytes.now }
{
    bytes.iter().position(|byte| *byte == QUOTE)
}

/// Whether a byte separates words: space or tab.
pub fn is_blank(byte: u8) -> bool
    ensures { result ≡ is_blank byte }
{
    byte == SPACE || byte == TAB
}

fn ends_word(byte: u8) -> bool
    ensures { result ≡ ends_word byte }
{
    is_blank(byte) || byte == QUOTE || byte == SEMICOLON
}

fn first_end(bytes: &[u8]) -> Option<usize>
    ensures { result ≡ position ends_word bytes.now }
{
    bytes.iter().position(|byte| ends_word(*byte))
}

/// The word with which `after` begins, the rest of a line after an opening quote, and what comes
/// after the closing quote. Without a closing one the word ends with the line.
#[tactic(auto, using(crate::proofs::WordLaws::found_or_len, crate::proofs::WordLaws::found_within))]
fn quoted_word(after: &[u8]) -> (Word<'_>, &[u8])
    ensures words { words (quote ∷ after.now) ≡ word_text result.0 ∷ words result.1.now }
    ensures part { IsPartOf after.now result.0.bytes.now result.0.to_end }
    ensures rest { EndsWith after.now result.1.now }
{
    let end = first_quote(after).unwrap_or(after.len());
    let (bytes, rest) = after.split_at(end);
    let closing = rest.len().min(1);
    let word = Word {
        bytes,
        quoted: true,
        to_end: after.len(),
    };
    (word, &rest[closing..])
}

/// The word without quotes with which the line has to begin, and what follows it.
#[tactic(auto, using(crate::proofs::WordLaws::found_or_len, crate::proofs::WordLaws::found_within))]
fn bare_word(line: &[u8]) -> (Word<'_>, &[u8])
    requires some { 0 < length line.now }
    requires bare { ends_word (slice_index line.now 0) ≡ false }
    ensures words { words line.now ≡ word_text result.0 ∷ words result.1.now }
    ensures part { IsPartOf line.now result.0.bytes.now result.0.to_end }
    ensures rest { EndsWith line.now result.1.now }
{
    let end = first_end(line).unwrap_or(line.len());
    let (bytes, rest) = line.split_at(end);
    let word = Word {
        bytes,
        quoted: false,
        to_end: line.len(),
    };
    (word, rest)
}

/// The first word of a line, and what follows it; `None` if the line has no word.
#[tactic(auto, using(crate::proofs::WordLaws::comment_at, crate::proofs::WordLaws::blank_at, crate::proofs::WordLaws::end_of_words))]
pub fn next_word(line: &[u8]) -> Option<(Word<'_>, &[u8])>
    ensures words { MatchOption result (words line.now ≡ [])
        (λ found. words line.now ≡ word_text found.0 ∷ words found.1.now) }
    ensures part { IfSome result (λ found. IsPartOf line.now found.0.bytes.now found.0.to_end) }
    ensures rest { IfSome result (λ found. EndsWith line.now found.1.now) }
{
    for (i, byte) in line.iter().enumerate() {
        if *byte == SEMICOLON {
            return None;
        }
        if *byte == QUOTE {
            return Some(quoted_word(&line[i + 1..]));
        }
        if !is_blank(*byte) {
            return Some(bare_word(&line[i..]));
        }
    }
    None
}

/// Whether the first word of a line is the keyword `name`, ignoring ASCII case.
pub fn begins(line: &[u8], name: &[u8]) -> bool
    ensures { result ≡ begins name.now (words line.now) }
{
    next_word(line).is_some_and(|(word, _)| word.bytes.eq_ignore_ascii_case(name))
}

/// The number that a word writes in digits, if it is at most `most`; `None` for any other word.
/// `most` must be at most `MOST_NUMBER`.
pub fn number(bytes: &[u8], most: u32) -> Option<u32>
    requires { most ≤ most_number }
    ensures { result ≡ number_of most bytes.now }
{
    let most = u64::from(most);
    let mut value: u64 = 0;
    for byte in bytes {
        if !byte.is_ascii_digit() {
            return None;
        }
        value = (10 * value + u64::from(*byte - b'0')).min(most + 1);
    }
    (!bytes.is_empty() && value <= most).then_some(value as u32)
}
