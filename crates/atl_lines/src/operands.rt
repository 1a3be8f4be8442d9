//! Reads the next words of a line as a number, a unit, a direction, an item, a skill or a kind.
//! See docs/RULES.md, "Orders" and "Names in orders". MissingWord comes where the line has no such
//! word, else the fault of a word that isn't as said. Of a unit, BadAlias is for that after NEW.
ghost use Rattle.std.specs.Prelude.{◌≡◌, ◌≤◌, IfOk};
ghost use Rattle.atl_words.specs.Limits.{most_number, last_alias};
ghost use Rattle.atl_words.specs.Words.{words};
ghost use Rattle.atl_lines.specs.Views.{Agrees};
ghost use Rattle.atl_words.specs.WordViews.{word_text};
ghost use Rattle.atl_words.specs.Positions.{IsPartOf, EndsWith};
ghost use Rattle.atl_lines.specs.Operands.{word_at, count_at, number_at, alias_at, unit_at, item_at, amount_of_item_at, skill_at, kind_at, direction_of, direction_at, units_of};

use crate::fault::LineFault;
use crate::order::UnitRef;
use atl_words::{LAST_ALIAS, MOST_NUMBER, Word, next_word, number};
use atl_world::{Direction, Sequence, World};
use std::alloc::{AllocError, Global};

/// The next word of a line, and the rest of the line after it; else MissingWord.
pub fn word_at(line: &[u8]) -> Result<(Word<'_>, &[u8]), LineFault>
    ensures word { Agrees (λ x. (word_text x.0, words x.1.now)) result (word_at (words line.now)) }
    ensures part { IfOk result (λ x. IsPartOf line.now x.0.bytes.now x.0.to_end) }
    ensures rest { IfOk result (λ x. EndsWith line.now x.1.now) }
{
    next_word(line).ok_or(LineFault::MissingWord)
}

#[tactic(auto, unfolding(crate::specs::Operands::count_at))]
fn count_at(line: &[u8], most: u32, fault: LineFault) -> Result<(u32, &[u8]), LineFault>
    requires { most ≤ most_number }
    ensures count { Agrees (λ x. (x.0, words x.1.now)) result
        (count_at most fault (words line.now)) }
    ensures within { IfOk result (λ x. x.0 ≤ most) }
{
    let (word, rest) = word_at(line)?;
    match number(word.bytes, most) {
        Some(count) if count != 0 => Ok((count, rest)),
        _ => Err(fault),
    }
}

/// The next word as a number from 1 to 999,999,999, and the rest of the line; else MissingWord or
/// BadNumber.
pub fn number_at(line: &[u8]) -> Result<(u32, &[u8]), LineFault>
    ensures { Agrees (λ x. (x.0, words x.1.now)) result (number_at (words line.now)) }
{
    count_at(line, MOST_NUMBER, LineFault::BadNumber)
}

/// The next word as an alias from 1 to 9,999, and the line's rest; else MissingWord or BadAlias.
pub fn alias_at(line: &[u8]) -> Result<(u32, &[u8]), LineFault>
    ensures alias { Agrees (λ x. (x.0, words x.1.now)) result (alias_at (words line.now)) }
    ensures within { IfOk result (λ x. x.0 ≤ last_alias) }
{
    count_at(line, LAST_ALIAS, LineFault::BadAlias)
}

/// The next words as a unit, and the rest of the line: a number from 1 to 999,999,999, or NEW in
/// any case and an alias from 1 to 9,999. The fault is MissingWord, BadNumber or BadAlias.
#[tactic(auto, unfolding(crate::specs::Operands::unit_at))]
pub fn unit_at(line: &[u8]) -> Result<(UnitRef, &[u8]), LineFault>
    ensures { Agrees (λ x. (x.0, words x.1.now)) result (unit_at (words line.now)) }
{
    let (word, rest) = word_at(line)?;
    if word.bytes.eq_ignore_ascii_case(b"NEW") {
        let (alias, rest) = alias_at(rest)?;
        return Ok((UnitRef::Alias(alias), rest));
    }
    let (number, rest) = number_at(line)?;
    Ok((UnitRef::Number(number), rest))
}

/// The number of the item that the next word names, else MissingWord or UnknownThing.
pub fn item_at(world: &World, line: &[u8]) -> Result<u16, LineFault>
    ensures { Agrees (λ x. x) result (item_at world.now (words line.now)) }
{
    let (word, _) = word_at(line)?;
    let item = world.item_named(word.bytes, word.quoted);
    item.ok_or(LineFault::UnknownThing)
}

/// The next words as an amount from 1 to 999,999,999 and the number of an item; else MissingWord,
/// BadNumber or UnknownThing.
pub fn amount_of_item_at(world: &World, line: &[u8]) -> Result<(u32, u16), LineFault>
    ensures { Agrees (λ x. x) result (amount_of_item_at world.now (words line.now)) }
{
    let (amount, rest) = number_at(line)?;
    let item = item_at(world, rest)?;
    Ok((amount, item))
}

/// The number of the skill that the next word names, else MissingWord or UnknownThing.
pub fn skill_at(world: &World, line: &[u8]) -> Result<u16, LineFault>
    ensures { Agrees (λ x. x) result (skill_at world.now (words line.now)) }
{
    let (word, _) = word_at(line)?;
    let skill = world.skill_named(word.bytes, word.quoted);
    skill.ok_or(LineFault::UnknownThing)
}

/// The number of the kind of structure that the next word names, else MissingWord or UnknownThing.
pub fn kind_at(world: &World, line: &[u8]) -> Result<u16, LineFault>
    ensures { Agrees (λ x. x) result (kind_at world.now (words line.now)) }
{
    let (word, _) = word_at(line)?;
    let kind = world.kind_named(word.bytes, word.quoted);
    kind.ok_or(LineFault::UnknownThing)
}

fn direction_of(word: Word) -> Option<Direction>
    ensures { result ≡ direction_of (word_text word.entry) }
{
    if word.bytes.eq_ignore_ascii_case(b"NORTH") {
        Some(Direction::North)
    } else if word.bytes.eq_ignore_ascii_case(b"SOUTH") {
        Some(Direction::South)
    } else if word.bytes.eq_ignore_ascii_case(b"EAST") {
        Some(Direction::East)
    } else if word.bytes.eq_ignore_ascii_case(b"WEST") {
        Some(Direction::West)
    } else {
        None
    }
}

/// The direction that the next word names, else MissingWord or BadDirection.
pub fn direction_at(line: &[u8]) -> Result<Direction, LineFault>
    ensures { Agrees (λ x. x) result (direction_at (words line.now)) }
{
    let (word, _) = word_at(line)?;
    direction_of(word).ok_or(LineFault::BadDirection)
}

/// The units that all words up to the line's end name, which may be none, or their first fault.
/// AllocError comes without memory.
#[tactic(auto, using(crate::proofs::UnitLaws::one_more, crate::proofs::UnitLaws::fault_stays, crate::proofs::UnitLaws::rest_shorter, crate::proofs::UnitLaws::no_more))]
pub fn units_of(
    alloc: Global,
    line: &[u8],
) -> Result<Result<Sequence<UnitRef>, LineFault>, AllocError>
    ensures { IfOk result (λ read. Agrees (λ units. units) read (units_of (words line.now))) }
{
    let mut units = Sequence::new(alloc);
    let mut rest = line;
    'words: while let Some(_) = next_word(rest) {
        match unit_at(rest) {
            Err(fault) => return Ok(Err(fault)),
            Ok((unit, after)) => {
                units.push(unit)?;
                rest = after;
            }
        }
    }
    Ok(Ok(units))
}
