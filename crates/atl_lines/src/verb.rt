//! Reads the keyword of an order: a word as a verb. See docs/RULES.md, "Orders".
ghost use Rattle.std.specs.Prelude.{◌≡◌, find};
ghost use Rattle.atl_words.specs.Words.{is_word};
ghost use Rattle.atl_words.specs.WordViews.{word_text};
ghost use Rattle.atl_lines.specs.Verbs.{listed_verbs, verb_of};
ghost use Rattle.atl_world.specs.Verbs.{keyword};

use atl_words::Word;
use atl_world::{Verb, variants};

/// The verbs that an order's line can begin with; FORM is left out, since it has lines of its own.
const LISTED: [Verb; 20] = variants!(
    Verb: Name Guard Enter Leave Promote Give Pay Transfer Sell Buy Tax Recruit Quit Move Sail Build Teach
    Study Produce Work
);

fn listed_verb(word: Word) -> Option<Verb>
    ensures { result ≡ find (λ verb. is_word (keyword verb) (word_text word.entry)) listed_verbs }
{
    let bytes = word.bytes;
    LISTED.iter().copied().find(|verb| bytes.eq_ignore_ascii_case(verb.keyword().as_bytes()))
}

/// The verb whose keyword a word is, in any case, and ENTER for BOARD; `None` for other words.
/// FORM is left out, since it has lines of its own.
pub(crate) fn verb_of_word(word: Word) -> Option<Verb>
    ensures { result ≡ verb_of (word_text word.entry) }
{
    if word.bytes.eq_ignore_ascii_case(b"BOARD") {
        return Some(Verb::Enter);
    }
    listed_verb(word)
}
