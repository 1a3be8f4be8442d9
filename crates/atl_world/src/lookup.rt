//! Finds the item, skill or kind that a word names. The flag `quoted` says whether the word is in
//! quotes. See docs/RULES.md, "Names in orders".
ghost use Rattle.std.specs.Prelude.{◌≡◌, ◌<◌, length, IfSome};
ghost use Rattle.std.specs.Str.{str_eq_ignore_ascii_case};
ghost use Rattle.atl_world.specs.Lookup.{letter_of, name_of, index_named, item_named, skill_named, kind_named};

use crate::letters::{SPACE, UNDERSCORE};
use crate::text::Text;
use crate::titled::Titled;
use crate::world::{Item, Kind, Skill, World};

impl Titled for Item {
    ghost title_of = { λ item. item.name };

    fn title(&self) -> &Text {
        &self.name
    }
}

impl Titled for Skill {
    ghost title_of = { λ skill. skill.name };

    fn title(&self) -> &Text {
        &self.name
    }
}

impl Titled for Kind {
    ghost title_of = { λ kind. kind.name };

    fn title(&self) -> &Text {
        &self.name
    }
}

/// The byte of a name that a byte of a word means: the byte itself, but a space for `_` in a word
/// without quotes.
pub fn letter_of(byte: u8, quoted: bool) -> u8
    ensures { result ≡ letter_of quoted byte }
{
    if !quoted && byte == UNDERSCORE {
        SPACE
    } else {
        byte
    }
}

#[tactic(auto, using(crate::proofs::LookupLaws::other_length, crate::proofs::LookupLaws::same_letter, crate::proofs::LookupLaws::other_letter, crate::proofs::LookupLaws::end_of_both))]
fn is_named(name: &[u8], word: &[u8], quoted: bool) -> bool
    ensures { result ≡ str_eq_ignore_ascii_case name.now (name_of word.now quoted) }
{
    if name.len() != word.len() {
        return false;
    }
    for i in 0..name.len() {
        let letter = letter_of(word[i], quoted);
        if !name[i].eq_ignore_ascii_case(&letter) {
            return false;
        }
    }
    true
}

fn index_named<T: Titled>(things: &[T], word: &[u8], quoted: bool) -> Option<usize>
    ensures value { result ≡ index_named T.title_of things.now word.now quoted }
    ensures within { IfSome result (λ i. i < length things.now) }
{
    things
        .iter()
        .position(|thing| is_named(thing.title().as_bytes(), word, quoted))
}

impl World {
    /// The number of the item that a word names, ignoring ASCII case, `None` if there is none. In a
    /// word without quotes `_` is a space. It takes no memory.
    /// See docs/RULES.md, "Names in orders".
    pub fn item_named(&self, word: &[u8], quoted: bool) -> Option<u16>
        ensures { result ≡ item_named self.now word.now quoted }
    {
        index_named(self.items(), word, quoted).map(|index| index as u16)
    }

    /// The number of the skill that a word names, ignoring ASCII case, `None` if there is none. In
    /// a word without quotes `_` is a space. It takes no memory.
    pub fn skill_named(&self, word: &[u8], quoted: bool) -> Option<u16>
        ensures { result ≡ skill_named self.now word.now quoted }
    {
        index_named(self.skills(), word, quoted).map(|index| index as u16)
    }

    /// The number of the kind of structure that a word names, ignoring ASCII case, `None` if there
    /// is none. In a word without quotes `_` is a space. It takes no memory.
    pub fn kind_named(&self, word: &[u8], quoted: bool) -> Option<u16>
        ensures { result ≡ kind_named self.now word.now quoted }
    {
        index_named(self.kinds(), word, quoted).map(|index| index as u16)
    }
}
