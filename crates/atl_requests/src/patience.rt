//! Reads from and writes to a connection's peer, with a time limit for each call and for all of
//! them.
ghost use Rattle.std.specs.Prelude.{◌≡◌, ◌≤◌, IfOk, IsErrAnd, min, None};
ghost use Rattle.std.specs.Duration.{as_nanos};
ghost use Rattle.std.specs.Io.{ReadsAtMost, WritesAtMost};
ghost use Rattle.std.specs.IoError.{error_kind};
ghost use Rattle.std.specs.Io.KnownBytes.{ReadConsumes, WriteAppends};
ghost use Rattle.atl_requests.specs.Patience.{most_of_call, most_of_all, WaitsWithin, IsSpent};

use std::io;
use std::io::{ErrorKind, Read, Write};
use std::net::TcpStream;
use std::rt::Clock;
use std::time::{Duration, Instant};

/// The most seconds that one read or one write waits for the peer.
const CALL_SECONDS: u64 = 10;

/// The most seconds that all reads and writes of a connection wait for its peer. In this time a
/// line of 1.1 kB a second carries the longest mailing.
const WHOLE_SECONDS: u64 = 60;

/// How long the service will still wait for a peer. The time that the command takes doesn't count.
pub struct Patience<'a, C: Clock> {
    clock: &'a C,
    left: Duration,
}

/// Drops the time left; the clock is only lent.
impl<'a, C: Clock> Drop for Patience<'a, C> {
    fn drop(self) {
        let Patience { clock: _, left: _ } = self;
    }
}

impl<'a, C: Clock> Patience<'a, C> {
    /// The patience with a new connection: all of `WHOLE_SECONDS` is left.
    pub fn new(clock: &'a C) -> Patience<'a, C>
        ensures { as_nanos result.left ≡ most_of_all }
    {
        Patience {
            clock,
            left: Duration::from_secs(WHOLE_SECONDS),
        }
    }

    /// The time limit of the read or write that begins now (the time left, at most 10 seconds), and
    /// the time now. TimedOut if no time is left; else an error only if the clock gives one.
    fn begin(&self) -> io::Result<(Duration, Instant)>
        ensures waits { IfOk result (λ begun. WaitsWithin self.now.left begun.0) }
        ensures over { as_nanos self.now.left ≡ 0
            → IsErrAnd result (λ e. error_kind e ≡ ErrorKind.TimedOut) }
    {
        if self.left.is_zero() {
            return Err(io::Error::from(ErrorKind::TimedOut));
        }
        Ok((wait_within(self.left), self.now()?))
    }

    fn now(&self) -> io::Result<Instant> {
        Instant::now(self.clock)
    }

    fn spend(&mut self, begun: Instant, ended: Instant)
        ensures { IsSpent self.old.left begun ended self.new.left }
    {
        self.left = self.left.saturating_sub(ended.duration_since(begun));
    }
}

fn wait_within(left: Duration) -> Duration
    ensures { as_nanos result ≡ min (as_nanos left) most_of_call }
{
    let most = Duration::from_secs(CALL_SECONDS);
    if left.as_nanos() < most.as_nanos() {
        left
    } else {
        most
    }
}

/// A connection as a reader and a writer with time limits. A call ends in TimedOut if no time is
/// left. Where the system refuses to set a time-out, the call has none, since the peer has done
/// nothing wrong.
pub struct Peer<'a, C: Clock> {
    stream: &'a TcpStream,
    patience: Patience<'a, C>,
}

/// Drops a reference and the time left: the connection is lent.
impl<'a, C: Clock> Drop for Peer<'a, C> {
    fn drop(self) {
        let Peer {
            stream: _,
            patience: _,
        } = self;
    }
}

impl<'a, C: Clock> Peer<'a, C> {
    /// The peer of a new connection, for which all of `WHOLE_SECONDS` is left.
    pub fn new(stream: &'a TcpStream, clock: &'a C) -> Peer<'a, C>
        ensures { as_nanos result.patience.left ≡ most_of_all }
    {
        Peer {
            stream,
            patience: Patience::new(clock),
        }
    }
}

impl<'a, C: Clock> Read for Peer<'a, C> {
    /// Reads from the peer with a time-out, if the system sets it, of at most 10 seconds and the
    /// time left, which falls by what this took unless the clock fails. TimedOut if none is left.
    fn read(&mut self, buf: &mut [u8]) -> io::Result<usize>
        ensures bound { ReadsAtMost result buf.new }
        ensures bytes { ReadConsumes None None result buf.new }
        ensures falls { as_nanos self.new.patience.left ≤ as_nanos self.old.patience.left }
        ensures over { as_nanos self.old.patience.left ≡ 0
            → IsErrAnd result (λ e. error_kind e ≡ ErrorKind.TimedOut) }
    {
        let (wait, begun) = self.patience.begin()?;
        let _ = self.stream.set_read_timeout(Some(wait));
        let mut stream = self.stream;
        let read = stream.read(buf);
        let ended = self.patience.now()?;
        self.patience.spend(begun, ended);
        read
    }
}

impl<'a, C: Clock> Write for Peer<'a, C> {
    /// Writes to the peer with a time-out, if the system sets it, of at most 10 seconds and the
    /// time left, which falls by what this took unless the clock fails. TimedOut if none is left.
    fn write(&mut self, buf: &[u8]) -> io::Result<usize>
        ensures bound { WritesAtMost result buf.now }
        ensures bytes { WriteAppends None None result buf.now }
        ensures falls { as_nanos self.new.patience.left ≤ as_nanos self.old.patience.left }
        ensures over { as_nanos self.old.patience.left ≡ 0
            → IsErrAnd result (λ e. error_kind e ≡ ErrorKind.TimedOut) }
    {
        let (wait, begun) = self.patience.begin()?;
        let _ = self.stream.set_write_timeout(Some(wait));
        let mut stream = self.stream;
        let written = stream.write(buf);
        let ended = self.patience.now()?;
        self.patience.spend(begun, ended);
        written
    }

    /// This takes nothing from the time left.
    fn flush(&mut self) -> io::Result<()> {
        let mut stream = self.stream;
        stream.flush()
    }
}
