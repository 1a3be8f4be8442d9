//! Serves connections of a listener, one after another.
ghost use Rattle.atl_http.specs.Listening.{ServesConnection, ServesEach};

use crate::serving::serve_peer;
use atl_commands::Service;
use atl_requests::patience::Peer;
use atl_requests::{Dice, HttpFault};
use sqlite::Alter;
use std::alloc::Global;
use std::io::ErrorKind;
use std::net::{TcpListener, TcpStream};
use std::rt::Clock;

/// How many connections in a row may be ended by their peers before one is accepted.
const MOST_ABORTED: u32 = 1_000_000;

/// Why serving connections stopped early.
#[derive(Drop, Clone, Copy, Debug, PartialEq, Eq)]
pub enum ListenFault {
    /// The system refused to accept a further connection, or 1,000,000 in a row were ended by their
    /// peers before they were accepted.
    Net,
    /// Memory ran out for a request or its reply.
    Memory,
}

/// Serves the request of one connection; Memory if memory ran out for it. A connection whose peer
/// ends it or is too slow counts as served. The contract says how the service is left, and nothing
/// of the bytes that the peer sends and gets.
fn serve_stream<C: Clock, S: Alter>(
    alloc: Global,
    clock: &C,
    stream: &TcpStream,
    service: &mut Service<S>,
    dice: Dice,
) -> Result<(), ListenFault>
    ensures { ServesConnection S.Store dice service.old result service.new }
{
    let mut peer = Peer::new(stream, clock);
    match serve_peer(alloc, &mut peer, service, dice) {
        Ok(_) => Ok(()),
        Err(HttpFault::Memory) => Err(ListenFault::Memory),
        Err(HttpFault::Cut | HttpFault::ReadFault | HttpFault::WriteFault) => Ok(()),
    }
}

/// Passes over connections that their peers ended before they were accepted.
fn next_stream(listener: &TcpListener) -> Option<TcpStream> {
    for _ in 0..MOST_ABORTED {
        match listener.accept() {
            Ok((stream, _)) => return Some(stream),
            Err(error) if error.kind() == ErrorKind::ConnectionAborted => {}
            Err(_) => return None,
        }
    }
    None
}

/// Serves `count` connections of a bound listener, one after another, one request each. A
/// connection that the system reports as ended before it was accepted isn't counted. Net if no
/// connection can be accepted; Memory if memory ran out for a request or its reply: the connections
/// before are served, and no more are accepted. The clock measures how long the service waits for a
/// peer.
pub fn serve_each<C: Clock, S: Alter>(
    alloc: Global,
    clock: &C,
    listener: &TcpListener,
    service: &mut Service<S>,
    count: u32,
    dice: Dice,
) -> Result<(), ListenFault>
    ensures { ServesEach S.Store dice count service.old result service.new }
{
    for _ in 0..count {
        let Some(stream) = next_stream(listener) else {
            return Err(ListenFault::Net);
        };
        match serve_stream(alloc, clock, &stream, service, dice) {
            Ok(()) => {}
            Err(fault) => return Err(fault),
        }
    }
    Ok(())
}
