//! A reader that gives a few bytes at a time, and a writer that takes few or none; both can fail or
//! be interrupted.
use std::alloc::Global;
use std::io::{self, ErrorKind, Read, Write};

/// A reader that gives `bytes` in pieces of `piece` bytes, with `interruptions` interrupted reads
/// before each piece. It fails after `reads_left` reads, and counts its reads.
#[derive(Drop)]
pub(crate) struct Pieces<'a> {
    bytes: &'a [u8],
    piece: usize,
    pub(crate) interruptions: usize,
    pub(crate) reads_left: usize,
    pub(crate) reads: usize,
    interrupted: usize,
}

impl<'a> Pieces<'a> {
    pub(crate) fn of(bytes: &'a [u8], piece: usize) -> Pieces<'a> {
        Pieces {
            bytes,
            piece,
            interruptions: 0,
            reads_left: usize::MAX,
            reads: 0,
            interrupted: 0,
        }
    }
}

/// Gives the next piece, none at the end, or an error: Interrupted, or ConnectionReset once no read
/// is left.
impl<'a> Read for Pieces<'a> {
    fn read(&mut self, buf: &mut [u8]) -> io::Result<usize> {
        self.reads = self.reads.saturating_add(1);
        if self.reads_left == 0 {
            return Err(io::Error::from(ErrorKind::ConnectionReset));
        }
        self.reads_left -= 1;
        if self.interrupted < self.interruptions {
            self.interrupted += 1;
            return Err(io::Error::from(ErrorKind::Interrupted));
        }
        self.interrupted = 0;
        let count = self.piece.min(self.bytes.len()).min(buf.len());
        let (given, rest) = self.bytes.split_at(count);
        buf[..count].copy_from_slice(given);
        self.bytes = rest;
        Ok(count)
    }
}

/// A writer that takes pieces of `piece` bytes, with `interruptions` interrupted writes before each
/// piece. After `most` bytes it fails, or takes none; it counts its writes.
#[derive(Drop)]
pub(crate) struct NarrowWriter {
    pub(crate) taken: Vec<u8>,
    most: usize,
    fails: bool,
    pub(crate) piece: usize,
    pub(crate) interruptions: usize,
    pub(crate) writes: usize,
    interrupted: usize,
}

impl NarrowWriter {
    /// A writer that takes one byte at a time without interruption, up to `most` bytes; then it
    /// fails or takes none.
    pub(crate) fn of(alloc: Global, most: usize, fails: bool) -> NarrowWriter {
        NarrowWriter {
            taken: Vec::new(alloc),
            most,
            fails,
            piece: 1,
            interruptions: 0,
            writes: 0,
            interrupted: 0,
        }
    }
}

/// Takes the next piece; or gives Interrupted, and after `most` bytes BrokenPipe or takes none.
impl Write for NarrowWriter {
    fn write(&mut self, buf: &[u8]) -> io::Result<usize> {
        self.writes = self.writes.saturating_add(1);
        if self.interrupted < self.interruptions {
            self.interrupted += 1;
            return Err(io::Error::from(ErrorKind::Interrupted));
        }
        self.interrupted = 0;
        if self.taken.len() >= self.most {
            return if self.fails {
                Err(io::Error::from(ErrorKind::BrokenPipe))
            } else {
                Ok(0)
            };
        }
        let count = self.piece.min(buf.len());
        match self.taken.extend_from_slice(&buf[..count]) {
            Ok(()) => Ok(count),
            Err(_) => Err(io::Error::from(ErrorKind::OutOfMemory)),
        }
    }

    /// Each byte is taken at once.
    fn flush(&mut self) -> io::Result<()> {
        Ok(())
    }
}
