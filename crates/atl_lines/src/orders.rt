//! Reads the words after a verb as the order table says, or gives their first fault. `cursor` is at
//! these words (`IsCursor`). AllocError comes without memory. See docs/RULES.md, "Orders".
ghost use Rattle.std.specs.Prelude.{◌≡◌, IfOk};
ghost use Rattle.atl_words.specs.Words.{words};
ghost use Rattle.atl_lines.specs.Views.{Agrees};
ghost use Rattle.atl_words.specs.WordViews.{word_text};
ghost use Rattle.atl_words.specs.Positions.{IsCursor};
ghost use Rattle.atl_lines.specs.Orders.{kind_of_name, named, order_value, read_order, read_flag, read_units, read_unit_and_number, read_unit_and_goods, read_name, read_kind, read_operands};

use crate::fault::LineFault;
use crate::operands::{
    alias_at, amount_of_item_at, direction_at, item_at, kind_at, number_at, skill_at, unit_at,
    units_of, word_at,
};
use crate::order::{NameKind, Operands, Order, Span};
use atl_words::{Cursor, Word, next_word, number};
use atl_world::{Shape, Verb, World, word_ok};
use std::alloc::{AllocError, Global};

fn read_flag(cursor: Cursor) -> Result<Operands, LineFault>
    ensures { Agrees (named cursor.entry.text.now) result
        (read_flag (words cursor.entry.rest.now)) }
{
    let (word, _) = word_at(cursor.rest)?;
    let flag = number(word.bytes, 1).ok_or(LineFault::BadNumber)?;
    Ok(Operands::Flag(flag == 1))
}

fn read_units(alloc: Global, cursor: Cursor) -> Result<Result<Operands, LineFault>, AllocError>
    ensures { IfOk result (λ read.
        Agrees (named cursor.entry.text.now) read (read_units (words cursor.entry.rest.now))) }
{
    if next_word(cursor.rest).is_none() {
        return Ok(Err(LineFault::MissingWord));
    }
    Ok(units_of(alloc, cursor.rest)?.map(Operands::Units))
}

fn read_unit_and_number(cursor: Cursor) -> Result<Operands, LineFault>
    ensures { Agrees (named cursor.entry.text.now) result
        (read_unit_and_number (words cursor.entry.rest.now)) }
{
    let (to, rest) = unit_at(cursor.rest)?;
    let (number, _) = number_at(rest)?;
    Ok(Operands::UnitAndNumber { to, number })
}

fn read_unit_and_goods(world: &World, cursor: Cursor) -> Result<Operands, LineFault>
    ensures { Agrees (named cursor.entry.text.now) result
        (read_unit_and_goods world.now (words cursor.entry.rest.now)) }
{
    let (to, rest) = unit_at(cursor.rest)?;
    let (amount, item) = amount_of_item_at(world, rest)?;
    Ok(Operands::UnitAndGoods { to, amount, item })
}

fn kind_of_name(word: Word) -> Option<NameKind>
    ensures { result ≡ kind_of_name (word_text word.entry) }
{
    if word.bytes.eq_ignore_ascii_case(b"UNIT") {
        Some(NameKind::Unit)
    } else if word.bytes.eq_ignore_ascii_case(b"FACTION") {
        Some(NameKind::Faction)
    } else if word.bytes.eq_ignore_ascii_case(b"BUILDING") {
        Some(NameKind::Building)
    } else if word.bytes.eq_ignore_ascii_case(b"SHIP") {
        Some(NameKind::Ship)
    } else {
        None
    }
}

#[tactic(auto, using(atl_words::proofs::WordLaws::ends_at_fits, atl_words::proofs::WordLaws::ends_at_further, atl_words::proofs::WordLaws::part_shorter, atl_words::proofs::WordLaws::ends_shorter))]
fn read_name(cursor: Cursor) -> Result<Operands, LineFault>
    requires { IsCursor cursor }
    ensures { Agrees (named cursor.entry.text.now) result
        (read_name (words cursor.entry.rest.now)) }
{
    let (kind, rest) = word_at(cursor.rest)?;
    let what = kind_of_name(kind).ok_or(LineFault::UnknownThing)?;
    let (word, _) = word_at(rest)?;
    if !word_ok(word.bytes, word.quoted) {
        return Err(LineFault::BadName);
    }
    let start = cursor.end - word.to_end;
    let name = Span {
        start,
        end: start + word.bytes.len(),
        quoted: word.quoted,
    };
    Ok(Operands::Name { what, name })
}

fn read_kind(world: &World, cursor: Cursor) -> Result<Operands, LineFault>
    ensures { Agrees (named cursor.entry.text.now) result
        (read_kind world.now (words cursor.entry.rest.now)) }
{
    if next_word(cursor.rest).is_none() {
        return Ok(Operands::Kind(None));
    }
    let kind = kind_at(world, cursor.rest)?;
    Ok(Operands::Kind(Some(kind)))
}

/// The operands of a verb that has this shape. Only a list of units takes memory.
fn read_operands(
    alloc: Global,
    world: &World,
    shape: Shape,
    cursor: Cursor,
) -> Result<Result<Operands, LineFault>, AllocError>
    requires { IsCursor cursor }
    ensures { IfOk result (λ read. Agrees (named cursor.entry.text.now) read
        (read_operands world.now shape (words cursor.entry.rest.now))) }
{
    match shape {
        Shape::Nothing => Ok(Ok(Operands::Nothing)),
        Shape::Alias => Ok(alias_at(cursor.rest).map(|read| Operands::Alias(read.0))),
        Shape::Flag => Ok(read_flag(cursor)),
        Shape::Number => Ok(number_at(cursor.rest).map(|read| Operands::Number(read.0))),
        Shape::Unit => Ok(unit_at(cursor.rest).map(|read| Operands::Unit(read.0))),
        Shape::Units => read_units(alloc, cursor),
        Shape::UnitAndNumber => Ok(read_unit_and_number(cursor)),
        Shape::UnitAndGoods => Ok(read_unit_and_goods(world, cursor)),
        Shape::Goods => Ok(amount_of_item_at(world, cursor.rest).map(|(
            amount,
            item,
        )| Operands::Goods { amount, item })),
        Shape::Name => Ok(read_name(cursor)),
        Shape::Direction => Ok(direction_at(cursor.rest).map(Operands::Direction)),
        Shape::Kind => Ok(read_kind(world, cursor)),
        Shape::Skill => Ok(skill_at(world, cursor.rest).map(Operands::Skill)),
        Shape::Item => Ok(item_at(world, cursor.rest).map(Operands::Item)),
    }
}

/// The order that a verb and the words after it give, or the first fault of these words. After
/// AllocError nothing is known of them.
#[tactic(auto, unfolding(crate::specs::Orders::read_order))]
pub fn order_at(
    alloc: Global,
    world: &World,
    verb: Verb,
    cursor: Cursor,
) -> Result<Result<Order, LineFault>, AllocError>
    requires { IsCursor cursor }
    ensures { IfOk result (λ read. Agrees (order_value cursor.entry.text.now) read
        (read_order world.now verb (words cursor.entry.rest.now))) }
{
    let operands = read_operands(alloc, world, verb.row().shape, cursor)?;
    Ok(operands.map(|operands| Order { verb, operands }))
}
