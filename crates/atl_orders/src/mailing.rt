//! Reads a mailing: finds its header and reads its lines. See docs/RULES.md, "Reading a mailing".
ghost use Rattle.std.specs.Prelude.{IfSome, ◌≡◌, ◌≢◌, ◌+◌, ◌<◌, ◌≤◌, ◌^◌, length, Ok, IfOk, IfErr, OnOk, ◌↔◌, IsTrue};
ghost use Rattle.std.specs.List.{slice_range};
ghost use Rattle.std.specs.Option.{option_copied};
ghost use Rattle.atl_words.specs.declared.mail_fault.MailFault.TheVariants.{Memory};
ghost use Rattle.atl_words.specs.Limits.{most_bytes};
ghost use Rattle.atl_words.specs.Words.{words};
ghost use Rattle.atl_words.specs.Positions.{EndsWith};
ghost use Rattle.atl_words.specs.TextLines.{lines};
ghost use Rattle.atl_lines.specs.Views.{effect_of};
ghost use Rattle.atl_words.specs.WordViews.{rest_size};
ghost use Rattle.atl_orders.specs.Views.{header_value, with_line};
ghost use Rattle.atl_orders.specs.Mailing.{after_header, reading, reading_of, IsReadWith, AgreesOrMemory};
ghost use Rattle.atl_words.specs.Header.{faction_of, header_from, IsMailingOf};

use atl_lines::{
    Aliases, Cursor, FaultyLine, LAST_FACTION, LineResult, MOST_BYTES, MailFault, Order,
    ReaderState, Span, UnitRef, begins, next_line, next_word, number, read_line,
};
use atl_world::lookup::letter_of;
use atl_world::{Sequence, World, let_go};
use std::alloc::{AllocError, Global};

/// An order of a mailing, with its line's number and the unit that it is for.
#[derive(Drop)]
pub struct Entry {
    /// The number of the order's line, from 1 on over the whole text.
    pub line: u32,
    /// The unit that is to carry out the order; for FORM the parent of the new unit.
    pub target: UnitRef,
    pub order: Order,
}

/// A mailing as read: its faction, its orders, and its faulty lines.
/// See docs/RULES.md, "Reading a mailing".
pub struct Mailing {
    /// The number of the faction that the header names, from 1 to `LAST_FACTION`.
    pub faction: u32,
    /// The bytes that were read, at most `MOST_BYTES`, which the names in orders are parts of.
    pub text: Sequence<u8>,
    /// The orders, in the order of their lines; a line gives one at most.
    pub entries: Sequence<Entry>,
    /// The faulty lines in their order; a line has one fault at most, and no order then.
    pub faults: Sequence<FaultyLine>,
}

impl Drop for Mailing {
    fn drop(self) {
        let_go!(self: Mailing { faction, text, entries, faults });
    }
}

impl Mailing {
    ghost use Rattle.atl_lines.specs.Orders.{name_in};

    /// The text, the orders and the faulty lines, taken out of the mailing.
    pub fn into_parts(self) -> (Sequence<u8>, Sequence<Entry>, Sequence<FaultyLine>)
        ensures text { result.0 ≡ self.text }
        ensures entries { result.1 ≡ self.entries }
        ensures faults { result.2 ≡ self.faults }
    {
        let Mailing {
            faction: _,
            text,
            entries,
            faults,
        } = self;
        (text, entries, faults)
    }

    /// The bytes of a name in an order of this mailing: the part of the text in the span, as far as
    /// it is there. In a name without quotes `_` is read as a space. For an order that was read
    /// these bytes keep the rule of names. AllocError comes without memory.
    pub fn name(&self, alloc: Global, span: Span) -> Result<Sequence<u8>, AllocError>
        ensures { IfOk result (λ bytes. bytes ≡ name_in self.now.text span) }
    {
        let bytes = part(self.text.as_slice(), span.start, span.end);
        let letters = bytes
            .iter()
            .map(|byte| letter_of(*byte, span.quoted))
            .collect(alloc)?;
        Ok(Sequence::from_vec(letters))
    }

    /// Adds the order or fault that a line gives. After AllocError the mailing is not to be used.
    fn note(&mut self, line: u32, outcome: LineResult) -> Result<(), AllocError>
        ensures text { OnOk result (self.new.text ≡ self.old.text) }
        ensures lines { OnOk result (reading_of self.new
            ≡ with_line (reading_of self.old) (line, effect_of self.old.text outcome)) }
    {
        match outcome {
            LineResult::Nothing => {}
            LineResult::Faulty(fault) => self.faults.push(FaultyLine { line, fault })?,
            LineResult::Says(target, order) => self.entries.push(Entry {
                line,
                target,
                order,
            })?,
        }
        Ok(())
    }
}

/// The bytes of a text from `start` to `end`, as far as the text has them.
#[tactic(auto, using(std::proofs::lemmas::List::drop_min, std::proofs::lemmas::List::take_min, std::proofs::lemmas::List::take_rest))]
fn part(text: &[u8], start: usize, end: usize) -> &[u8]
    ensures { result.now ≡ slice_range text.now start end }
{
    let rest = &text[start.min(text.len())..];
    &rest[..end.saturating_sub(start).min(rest.len())]
}

fn faction_of(line: &[u8]) -> Option<u32>
    ensures { result ≡ faction_of (words line.now) }
{
    let (_, rest) = next_word(line)?;
    let (word, _) = next_word(rest)?;
    let faction = number(word.bytes, LAST_FACTION)?;
    (faction != 0).then_some(faction)
}

/// A header as read: its faction, and the lines after it.
#[derive(Drop, Clone, Copy)]
struct Header<'a> {
    /// The number of the faction, from 1 to `LAST_FACTION`.
    faction: u32,
    /// The number of the line after the header.
    next: u32,
    /// The text from the line after the header on, where there is such a line.
    rest: Option<&'a [u8]>,
}

/// The first header of a text of at most `MOST_BYTES` bytes; NoHeader if there is none, BadHeader
/// if it names no faction. It takes no memory (`sure`). The lines after the header are the end of
/// the text (`rest`); each has a number below `MOST_BYTES` + 2 (`small`).
#[tactic(auto, using(atl_words::proofs::WordLaws::ends_further, atl_words::proofs::WordLaws::ends_with_all), unfolding(atl_words::specs::Header::header_from))]
fn find_header(text: &[u8]) -> Result<Header<'_>, MailFault>
    requires { length text.now ≤ most_bytes }
    ensures exact { AgreesOrMemory header_value result (header_from 1 (lines text.now)) }
    ensures rest { IfOk result (λ h. IfSome (option_copied h.rest) (EndsWith text.now)) }
    ensures small { IfOk result (λ h. h.next + rest_size (option_copied h.rest) ≤ most_bytes + 2) }
    ensures sure { IfErr result (λ fault. fault ≢ Memory) }
{
    let mut rest = Some(text);
    let mut next = 1;
    while let Some(left) = rest {
        let (line, after) = next_line(left);
        rest = after;
        next += 1;
        if begins(line, b"#ATLANTIS") {
            let faction = faction_of(line).ok_or(MailFault::BadHeader)?;
            return Ok(Header {
                faction,
                next,
                rest,
            });
        }
    }
    Err(MailFault::NoHeader)
}

/// Whether a text is a mailing of a faction: it has at most `MOST_BYTES` bytes, and its first line
/// that begins with `#ATLANTIS` names the faction. It takes no memory.
/// See docs/RULES.md, "Reading a mailing".
pub fn is_mailing_of(faction: u32, text: &[u8]) -> bool
    ensures { IsTrue result ↔ (IsMailingOf faction text.now) }
{
    text.len() <= MOST_BYTES && find_header(text).is_ok_and(|header| header.faction == faction)
}

/// The mailing of a text with this header, by the lines after it. They are the end of the text
/// (`rest`), with numbers below 2^32 (`small`). AllocError comes without memory.
#[tactic(auto, using(atl_words::proofs::LineLaws::line_ends_at, atl_words::proofs::WordLaws::ends_further, atl_words::proofs::LineLaws::starts_shorter, atl_words::proofs::WordLaws::ends_shorter), unfolding(crate::specs::Mailing::effects))]
fn read_body(
    alloc: Global,
    world: &World,
    text: &[u8],
    header: Header,
) -> Result<Mailing, AllocError>
    requires small { header.next + rest_size (option_copied header.rest) < 2 ^ 32 }
    requires rest { IfSome (option_copied header.rest) (EndsWith text.now) }
    ensures reading { IfOk result (λ m.
        after_header world.now (Ok (header_value header.entry)) ≡ Ok (reading_of m)) }
    ensures kept { IfOk result (λ m. m.text ≡ text.now) }
{
    let mut mailing = Mailing {
        faction: header.faction,
        text: Sequence::from_vec(Vec::from_slice(alloc, text)?),
        entries: Sequence::new(alloc),
        faults: Sequence::new(alloc),
    };
    let mut aliases = Aliases::new(alloc)?;
    let mut state = ReaderState::Nowhere;
    let mut number = header.next;
    let mut rest = header.rest;
    while let Some(left) = rest {
        let (line, after) = next_line(left);
        if begins(line, b"#END") {
            return Ok(mailing);
        }
        let line = Cursor {
            text,
            rest: line,
            end: text.len() - left.len() + line.len(),
        };
        let (outcome, next) = read_line(alloc, world, state, &mut aliases, line)?;
        mailing.note(number, outcome)?;
        state = next;
        rest = after;
        number += 1;
    }
    Ok(mailing)
}

/// Reads a text as a mailing: its faction, its orders and its faulty lines, or why it is none. The
/// text may have any bytes; it is kept as it is. TooLong comes for more than `MOST_BYTES` bytes,
/// else NoHeader if no line begins with `#ATLANTIS`. Else BadHeader comes if the first line that
/// does names no faction from 1 to `LAST_FACTION`. Memory may come at any point. A faulty line
/// gives no order, and the other lines count. See docs/RULES.md, "Reading a mailing".
#[tactic(auto, unfolding(crate::specs::Mailing::reading))]
pub fn read_mailing(alloc: Global, world: &World, text: &[u8]) -> Result<Mailing, MailFault>
    ensures reading { AgreesOrMemory reading_of result (reading world.now text.now) }
    ensures kept { IfOk result (λ m. m.text ≡ text.now) }
    ensures read { IfOk result (IsReadWith world.now) }
{
    if text.len() > MOST_BYTES {
        return Err(MailFault::TooLong);
    }
    let header = find_header(text)?;
    Ok(read_body(alloc, world, text, header)?)
}
