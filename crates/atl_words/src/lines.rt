//! Splits a text into its lines. See docs/RULES.md, "Reading a mailing".

ghost use Rattle.std.specs.Prelude.{◌≡◌, ◌≤◌, ◌<◌, ◌∷◌, length, IfSome};
ghost use Rattle.std.specs.List.{position};
ghost use Rattle.std.specs.Option.{option_copied};
ghost use Rattle.atl_words.specs.TextLines.{is_feed, without_return, lines};
ghost use Rattle.atl_words.specs.WordViews.{lines_of_rest, rest_size};
ghost use Rattle.atl_words.specs.Positions.{StartsWith, EndsWith};

use crate::letters::{CARRIAGE_RETURN, LINE_FEED};

fn first_feed(bytes: &[u8]) -> Option<usize>
    ensures value { result ≡ position is_feed bytes.now }
    ensures within { IfSome result (λ i. i < length bytes.now) }
{
    bytes.iter().position(|byte| *byte == LINE_FEED)
}

#[tactic(auto, using(crate::proofs::LineLaws::return_cut, crate::proofs::LineLaws::line_without_return_kept, crate::proofs::LineLaws::all_front, crate::proofs::LineLaws::take_front))]
fn without_return(line: &[u8]) -> &[u8]
    ensures value { result.now ≡ without_return line.now }
    ensures front { StartsWith line.now result.now }
{
    let len = line.len();
    if len > 0 && line[len - 1] == CARRIAGE_RETURN {
        return &line[..len - 1];
    }
    line
}

/// The first line of a text, without a carriage return at its end, and what follows its line feed,
/// `None` if there is no line feed.
#[tactic(auto, using(crate::proofs::LineLaws::lines_feed, crate::proofs::LineLaws::lines_last, crate::proofs::LineLaws::front_further, crate::proofs::LineLaws::take_front, crate::proofs::WordLaws::ends_at, std::proofs::lemmas::List::take_rest))]
pub fn next_line(text: &[u8]) -> (&[u8], Option<&[u8]>)
    ensures lines { lines text.now ≡ result.0.now ∷ lines_of_rest (option_copied result.1) }
    ensures front { StartsWith text.now result.0.now }
    ensures rest { IfSome (option_copied result.1) (EndsWith text.now) }
    ensures shorter { rest_size (option_copied result.1) ≤ length text.now }
{
    match first_feed(text) {
        Some(end) => (without_return(&text[..end]), Some(&text[end + 1..])),
        None => (without_return(text), None),
    }
}
