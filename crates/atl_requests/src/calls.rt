//! Counts the reads of one request and the interrupted writes of its reply, and keeps the outcome
//! of the last one.
ghost use Rattle.std.specs.Prelude.{◌≡◌, ◌↔◌, ◌+◌, ◌<◌, IsTrue, length};
ghost use Rattle.std.specs.IoError.{error_kind};
ghost use Rattle.atl_requests.specs.Calls.{IsReadOutcome, IsWriteOutcome};

use std::io::{self, Error, ErrorKind, Read, Write};

/// The most reads for one request.
pub const MOST_READS: u32 = 1_000_000;

/// The number of interrupted writes after which the reply is given up.
pub const MOST_INTERRUPTED: u32 = 1_000_000;

#[derive(Drop, Clone, Copy)]
pub enum ReadOutcome {
    /// The number of bytes read, at least one.
    Piece(usize),
    /// The input has no more bytes.
    End,
    /// The read was interrupted, and can be done again.
    Interrupted,
    /// The read failed for another cause.
    Failed,
}

#[derive(Drop, Clone, Copy)]
pub enum WriteOutcome {
    /// The number of bytes written, at least one.
    Taken(usize),
    Interrupted,
    /// The write failed, or took no byte.
    Failed,
}

/// The reads of one request: how many there were, and the outcome of the last one.
#[derive(Drop, Clone, Copy)]
pub struct ReadCalls {
    count: u32,
    last: ReadOutcome,
}

/// The writes of one reply: how many of them were interrupted, and the outcome of the last one.
#[derive(Drop, Clone, Copy)]
pub struct WriteCalls {
    interrupted: u32,
    last: WriteOutcome,
}

fn is_interrupted(error: &Error) -> bool
    ensures { IsTrue result ↔ (error_kind error.now ≡ ErrorKind.Interrupted) }
{
    error.kind() == ErrorKind::Interrupted
}

fn read_outcome(returned: io::Result<usize>) -> ReadOutcome
    ensures { IsReadOutcome returned result }
{
    match returned {
        Ok(0) => ReadOutcome::End,
        Ok(count) => ReadOutcome::Piece(count),
        Err(error) if is_interrupted(&error) => ReadOutcome::Interrupted,
        Err(_) => ReadOutcome::Failed,
    }
}

fn write_outcome(returned: io::Result<usize>) -> WriteOutcome
    ensures { IsWriteOutcome returned result }
{
    match returned {
        Ok(0) => WriteOutcome::Failed,
        Ok(count) => WriteOutcome::Taken(count),
        Err(error) if is_interrupted(&error) => WriteOutcome::Interrupted,
        Err(_) => WriteOutcome::Failed,
    }
}

impl ReadCalls {
    ghost use Rattle.atl_requests.specs.Calls.{most_reads, no_reads, ReadsOnce};

    /// The counters before the first read.
    pub fn none() -> ReadCalls
        ensures { result ≡ no_reads }
    {
        ReadCalls {
            count: 0,
            last: ReadOutcome::Piece(0),
        }
    }

    /// The number of reads so far.
    pub fn count(self) -> u32
        ensures { result ≡ self.count }
    {
        self.count
    }

    /// Reads once into the front of the buffer `room`, which isn't empty, counts the read, and
    /// returns its outcome. Fewer than `MOST_READS` reads must have been counted before.
    pub fn read<R: Read>(&mut self, reader: &mut R, room: &mut [u8]) -> ReadOutcome
        requires room { 0 < length room.old }
        requires few { self.old.count < most_reads }
        ensures { ReadsOnce (R.remaining reader.old) (R.remaining reader.new) room.new self.old
            self.new result }
    {
        let came = read_outcome(reader.read(room));
        self.count += 1;
        self.last = came;
        came
    }
}

impl WriteCalls {
    ghost use Rattle.atl_requests.specs.Calls.{most_interrupted, no_writes, WritesOnce};

    /// The counters before the first write.
    pub fn none() -> WriteCalls
        ensures { result ≡ no_writes }
    {
        WriteCalls {
            interrupted: 0,
            last: WriteOutcome::Taken(0),
        }
    }

    /// The number of interrupted writes so far.
    pub fn interrupted(self) -> u32
        ensures { result ≡ self.interrupted }
    {
        self.interrupted
    }

    /// Writes bytes of `rest` once, counts the write if it was interrupted, and returns the
    /// outcome. Fewer than `MOST_INTERRUPTED` writes must have been counted before.
    pub fn write<W: Write>(&mut self, writer: &mut W, rest: &[u8]) -> WriteOutcome
        requires { self.old.interrupted < most_interrupted }
        ensures { WritesOnce (W.contents writer.old) (W.contents writer.new) rest.now self.old
            self.new result }
    {
        let written = write_outcome(writer.write(rest));
        if let WriteOutcome::Interrupted = written {
            self.interrupted += 1;
        }
        self.last = written;
        written
    }
}
