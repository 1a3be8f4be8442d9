//! Reads a request in pieces from a reader, and writes a reply to a writer. See docs/FORMATS.md,
//! "For developers". `room` is the buffer of a read, of 8,192 bytes, `seen` are the bytes read so
//! far, and `reads` and `writes` count the calls.
ghost use Rattle.std.specs.Prelude.{◌≡◌, ◌≤◌, ◌+◌, [], length, IfOk, OnOk};
ghost use Rattle.atl_parsing.specs.Heads.{most_at_once, IsShortBy, ComesTo};
ghost use Rattle.atl_requests.specs.Calls.{most_reads, no_reads, GoesOn, EndsReading, no_writes, EndsWriting};
ghost use Rattle.atl_requests.specs.Io.{ReadsMore, Receives, Sends};

use crate::calls::{
    MOST_INTERRUPTED, MOST_READS, ReadCalls, ReadOutcome, WriteCalls, WriteOutcome,
};
use atl_parsing::parsing::{progress_of, rest_after};
use atl_parsing::request::{FinalVerdict, Progress};
use std::alloc::{AllocError, Global};
use std::fmt;
use std::io::{Read, Write};

/// The most bytes that one read takes.
const MOST_AT_ONCE: usize = 8_192;

/// Why serving a request ended without a whole reply. See docs/FORMATS.md, "HTTP".
#[derive(Drop, Clone, Copy, Debug, PartialEq, Eq)]
pub enum HttpFault {
    /// The input ended before the request was whole. No command was run, and nothing written.
    Cut,
    /// A read failed, or 1,000,000 reads haven't brought the whole request. No command was run, and
    /// nothing written.
    ReadFault,
    /// A write failed or took no byte, or 1,000,000 writes were interrupted. A front of the reply
    /// may have been written, and a command that was run stays.
    WriteFault,
    /// There was no memory. Nothing was written, and a command that was run stays.
    Memory,
}

/// Numbers the faults of HTTP; callers know them by these numbers.
impl HttpFault {
    ghost use Rattle.atl_requests.specs.Io.{fault_number};

    /// The number of the fault, from 1 to 3; Memory has none.
    pub fn number(self) -> Option<u8>
        ensures { result ≡ fault_number self }
    {
        match self {
            HttpFault::Cut => Some(1),
            HttpFault::ReadFault => Some(2),
            HttpFault::WriteFault => Some(3),
            HttpFault::Memory => None,
        }
    }
}

/// Writes the fault's number and name, as `1 Cut`; of `Memory` the name alone.
impl fmt::Display for HttpFault {
    fn fmt<W: fmt::Write>(&self, f: &mut fmt::Formatter<W>) -> fmt::Result {
        match self.number() {
            Some(number) => write!(f, "{number} {self:?}"),
            None => write!(f, "{self:?}"),
        }
    }
}

impl std::error::Error for HttpFault {}

impl From<AllocError> for HttpFault {
    ghost use Rattle.atl_requests.specs.declared.io.HttpFault.TheVariants.{Memory};

    ghost from_gives = { λ _ e. e ≡ Memory };

    fn from(_e: AllocError) -> HttpFault {
        HttpFault::Memory
    }
}

/// Reads once, and adds what came to `seen`; returns how many bytes, 0 if the read was interrupted.
/// Once `MOST_READS` reads are counted, none is done, and the fault is ReadFault. If a read was
/// done before, its outcome must have been a piece or an interruption.
fn read_more<R: Read>(
    reader: &mut R,
    reads: &mut ReadCalls,
    room: &mut [u8],
    seen: &mut Vec<u8>,
) -> Result<usize, HttpFault>
    requires room { length room.old ≡ most_at_once }
    requires few { reads.old.count ≤ most_reads }
    requires goes_on { GoesOn reads.old.last }
    ensures more { ReadsMore (R.remaining reader.old) (R.remaining reader.new) seen.old.items
        seen.new.items result }
    ensures ends { EndsReading reads.new result }
    ensures counts { OnOk result (reads.new.count ≡ reads.old.count + 1) }
{
    if reads.count() == MOST_READS {
        return Err(HttpFault::ReadFault);
    }
    match reads.read(reader, room) {
        ReadOutcome::Piece(count) => {
            seen.extend_from_slice(&room[..count])?;
            Ok(count)
        }
        ReadOutcome::Interrupted => Ok(0),
        ReadOutcome::End => Err(HttpFault::Cut),
        ReadOutcome::Failed => Err(HttpFault::ReadFault),
    }
}

/// Writes all bytes. WriteFault if a write fails or takes no byte, or 1,000,000 writes are
/// interrupted: then only the first bytes were written, perhaps none. `writes` must be `none()`.
pub fn send<W: Write>(
    writer: &mut W,
    writes: &mut WriteCalls,
    bytes: &[u8],
) -> Result<(), HttpFault>
    requires { writes.old ≡ no_writes }
    ensures sends { Sends (W.contents writer.old) (W.contents writer.new) bytes.now result }
    ensures ends { EndsWriting writes.new result }
{
    let mut sent = 0;
    while sent < bytes.len() {
        match writes.write(writer, rest_after(bytes, sent)) {
            WriteOutcome::Taken(count) => sent += count,
            WriteOutcome::Interrupted if writes.interrupted() < MOST_INTERRUPTED => {}
            WriteOutcome::Interrupted | WriteOutcome::Failed => return Err(HttpFault::WriteFault),
        }
    }
    Ok(())
}

fn read_buffer(alloc: Global) -> Result<Vec<u8>, AllocError>
    ensures { IfOk result (λ room. length room.items ≡ most_at_once) }
{
    let mut room = Vec::with_capacity(alloc, MOST_AT_ONCE)?;
    room.resize(MOST_AT_ONCE, 0u8)?;
    Ok(room)
}

/// Nothing is parsed while `missing` bytes are known to be missing: before these have come no
/// parsing could end the request.
fn progress_if_due(alloc: Global, seen: &[u8], missing: usize) -> Result<Progress, AllocError>
    requires { IsShortBy seen.now missing }
    ensures { IfOk result (ComesTo seen.now) }
{
    if 0 < missing {
        return Ok(Progress::Missing(missing));
    }
    progress_of(alloc, seen)
}

fn receive_in<R: Read>(
    alloc: Global,
    reader: &mut R,
    reads: &mut ReadCalls,
    room: &mut [u8],
    seen: &mut Vec<u8>,
) -> Result<FinalVerdict, HttpFault>
    requires room { length room.old ≡ most_at_once }
    requires empty { seen.old.items ≡ [] }
    requires fresh { reads.old ≡ no_reads }
    ensures receives { Receives (R.remaining reader.old) (R.remaining reader.new) seen.new.items
        result }
    ensures ends { EndsReading reads.new result }
{
    let mut missing = 0;
    loop {
        match progress_if_due(alloc, seen, missing)? {
            Progress::Ends(outcome) => return Ok(outcome),
            Progress::Missing(count) => missing = count,
        }
        match read_more(reader, reads, room, seen) {
            Ok(count) => missing = missing.saturating_sub(count),
            Err(fault) => return Err(fault),
        }
    }
}

/// Reads until the request is whole or refused, and leaves in `seen`, which must be empty, all
/// that was read. `reads` must be `none()`. Cut: the input ends before the request is whole.
/// ReadFault: a read fails, or 1,000,000 reads haven't brought all of it. Memory: there is none for
/// the bytes, the routes or the request; then `seen` may lack bytes that were read.
pub fn receive<R: Read>(
    alloc: Global,
    reader: &mut R,
    reads: &mut ReadCalls,
    seen: &mut Vec<u8>,
) -> Result<FinalVerdict, HttpFault>
    requires empty { seen.old.items ≡ [] }
    requires fresh { reads.old ≡ no_reads }
    ensures receives { Receives (R.remaining reader.old) (R.remaining reader.new) seen.new.items
        result }
    ensures ends { EndsReading reads.new result }
{
    let mut room = read_buffer(alloc)?;
    receive_in(alloc, reader, reads, &mut room, seen)
}
