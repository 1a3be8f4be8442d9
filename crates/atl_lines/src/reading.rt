//! Reads one line of a mailing. `state` is the reader's state before the line, and `cursor` is at
//! the words after its keyword. See docs/RULES.md, "Reading a mailing".
ghost use Rattle.std.specs.Prelude.{◌≡◌, ℕ, List, IfOk};
ghost use Rattle.std.specs.List.{list_all};
ghost use Rattle.atl_lines.specs.Views.{alias_set, effect_of, step_of};
ghost use Rattle.atl_words.specs.WordViews.{word_text};
ghost use Rattle.atl_words.specs.Words.{words};
ghost use Rattle.atl_words.specs.Positions.{IsCursor};
ghost use Rattle.atl_lines.specs.Operands.{number_at};
ghost use Rattle.atl_lines.specs.Orders.{read_order};
ghost use Rattle.atl_lines.specs.Reading.{is_plain, keyword_of, unit_step, end_step, form_step, target, order_effect, line_step};

use crate::aliases::Aliases;
use crate::fault::LineFault;
use crate::operands::{alias_at, number_at};
use crate::order::{Operands, Order, UnitRef};
use crate::orders::order_at;
use crate::verb::verb_of_word;
use LineResult::{Faulty, Nothing, Says};
use ReaderState::{At, Forming, Nowhere, Skipping};
use atl_words::letters::TAB;
use atl_words::{Cursor, Word, next_word};
use atl_world::letters::{SPACE, TILDE};
use atl_world::{Verb, World};
use std::alloc::{AllocError, Global};

/// The keyword that a line of a mailing begins with: UNIT, END, FORM, or that of another order.
#[derive(Drop, Clone, Copy, PartialEq, Eq)]
pub enum Keyword {
    Unit,
    End,
    Form,
    Order(Verb),
}

/// The reader's state between two lines: which unit is named, and which block is open.
#[derive(Drop, Clone, Copy, PartialEq, Eq)]
pub enum ReaderState {
    /// No unit is named, and no block is open.
    Nowhere,
    /// The unit with this number is named, outside of blocks.
    At(u32),
    /// The block of a FORM without fault is open: its orders are for the new unit of this alias.
    Forming { parent: u32, alias: u32 },
    /// The block of a faulty FORM is open: its orders count for nobody. After the block the unit
    /// that was named before it is named again, if there was one.
    Skipping(Option<u32>),
}

/// What a line gives, other than the reader's next state: nothing, a fault, or an order for a unit.
#[derive(Drop)]
pub enum LineResult {
    Nothing,
    Faulty(LineFault),
    Says(UnitRef, Order),
}

fn is_plain(line: &[u8]) -> bool
    ensures { result ≡ list_all is_plain line.now }
{
    line.iter()
        .all(|byte| *byte == TAB || (SPACE <= *byte && *byte <= TILDE))
}

fn keyword_of(word: Word) -> Option<Keyword>
    ensures { result ≡ keyword_of (word_text word.entry) }
{
    let bytes = word.bytes;
    if bytes.eq_ignore_ascii_case(b"UNIT") {
        Some(Keyword::Unit)
    } else if bytes.eq_ignore_ascii_case(b"END") {
        Some(Keyword::End)
    } else if bytes.eq_ignore_ascii_case(b"FORM") {
        Some(Keyword::Form)
    } else {
        verb_of_word(word).map(Keyword::Order)
    }
}

/// What UNIT does, with any aliases given and any text; `line` is what follows the keyword.
fn unit_line(line: &[u8]) -> (LineResult, ReaderState)
    ensures { (given : _) (text : List ℕ)
        → unit_step given (number_at (words line.now)) ≡ step_of text result given }
{
    match number_at(line) {
        Ok((number, _)) => (Nothing, At(number)),
        Err(fault) => (Faulty(fault), Nowhere),
    }
}

/// What END does, with any aliases given and any text.
fn end_line(state: ReaderState) -> (LineResult, ReaderState)
    ensures { (given : _) (text : List ℕ) → end_step state given ≡ step_of text result given }
{
    match state {
        Nowhere | At(_) => (Faulty(LineFault::EndAlone), state),
        Forming { parent, alias: _ } | Skipping(Some(parent)) => (Nothing, At(parent)),
        Skipping(None) => (Nothing, Nowhere),
    }
}

/// What FORM does, with any text; without fault its alias is added. `line` follows the keyword.
fn form_line(state: ReaderState, aliases: &mut Aliases, line: &[u8]) -> (LineResult, ReaderState)
    ensures { (text : List ℕ) → form_step state (alias_set aliases.old) (words line.now)
        ≡ step_of text result (alias_set aliases.new) }
{
    let parent = match state {
        Nowhere => return (Faulty(LineFault::NoUnit), Skipping(None)),
        Forming { .. } | Skipping(_) => return (Faulty(LineFault::NestedForm), state),
        At(parent) => parent,
    };
    let skipping = Skipping(Some(parent));
    match alias_at(line) {
        Err(fault) => (Faulty(fault), skipping),
        Ok((alias, _)) if aliases.contains(alias) => (Faulty(LineFault::BadAlias), skipping),
        Ok((alias, _)) => {
            aliases.add(alias);
            let order = Order {
                verb: Verb::Form,
                operands: Operands::Alias(alias),
            };
            (
                Says(UnitRef::Number(parent), order),
                Forming { parent, alias },
            )
        }
    }
}

fn target(state: ReaderState) -> Option<UnitRef>
    ensures { result ≡ target state }
{
    match state {
        Nowhere | Skipping(_) => None,
        At(number) => Some(UnitRef::Number(number)),
        Forming { parent: _, alias } => Some(UnitRef::Alias(alias)),
    }
}

fn order_line(
    alloc: Global,
    world: &World,
    state: ReaderState,
    verb: Verb,
    cursor: Cursor,
) -> Result<LineResult, AllocError>
    requires { IsCursor cursor }
    ensures { IfOk result (λ outcome. effect_of cursor.entry.text.now outcome
        ≡ order_effect (target state) (read_order world.now verb (words cursor.entry.rest.now))) }
{
    let Some(unit) = target(state) else {
        return Ok(Faulty(LineFault::NoUnit));
    };
    match order_at(alloc, world, verb, cursor)? {
        Ok(order) => Ok(Says(unit, order)),
        Err(fault) => Ok(Faulty(fault)),
    }
}

/// What a line of a mailing gives, and the reader's next state. `line.rest` is the whole line, a
/// part of `line.text` that ends at `line.end` (`IsCursor`). A FORM without fault adds its alias to
/// `aliases`; after AllocError nothing is known of them.
#[tactic(auto, using(atl_words::proofs::WordLaws::ends_at_further, atl_words::proofs::WordLaws::ends_shorter), unfolding(crate::specs::Reading::line_step))]
pub fn read_line(
    alloc: Global,
    world: &World,
    state: ReaderState,
    aliases: &mut Aliases,
    line: Cursor,
) -> Result<(LineResult, ReaderState), AllocError>
    requires { IsCursor line }
    ensures { IfOk result (λ r.
        line_step world.now state (alias_set aliases.old) line.entry.rest.now
        ≡ step_of line.entry.text.now r (alias_set aliases.new)) }
{
    if !is_plain(line.rest) {
        return Ok((Faulty(LineFault::BadByte), state));
    }
    let Some((word, rest)) = next_word(line.rest) else {
        return Ok((Nothing, state));
    };
    match keyword_of(word) {
        None => Ok((Faulty(LineFault::UnknownOrder), state)),
        Some(Keyword::Unit) => Ok(unit_line(rest)),
        Some(Keyword::End) => Ok(end_line(state)),
        Some(Keyword::Form) => Ok(form_line(state, aliases, rest)),
        Some(Keyword::Order(verb)) => {
            let outcome = order_line(alloc, world, state, verb, Cursor { rest, ..line })?;
            Ok((outcome, state))
        }
    }
}
