//! Tests of serving connections over a socket, in one process: each peer has sent its request
//! before any is served.
use super::compare::assert_true;
use super::making::{assert_reply, new_service};
use super::requests::{JOIN, JOINED, REPORT, REPORTED, TOO_LONG};
use super::serving::HttpService;
use crate::tests::compare::assert_text;
use atl_http::listening::ListenFault;
use std::alloc::Global;
use std::io::{self, Read, Write};
use std::net::{Ipv4Addr, Net, Shutdown, SocketAddr, TcpListener, TcpStream};
use std::process::Abort;
use std::rt::Clock;
use std::test::Fail;

/// The head of a request whose body is too long; no byte of the body follows.
const LONG_BODY: &str =
    "POST /orders/1 HTTP/1.1\r\nHost: x\r\nAtlantis-Pass: pw\r\nContent-Length: 65537\r\n\r\n";

/// What each peer sends, whether it then ends its side, and the reply. One joins, one ends within
/// its request, which counts as served, one is refused for the length of its body, and one asks for
/// a report.
static PEERS: [(&str, bool, &str); 4] = [
    (JOIN, false, JOINED),
    ("GET /report/1", true, ""),
    (LONG_BODY, false, TOO_LONG),
    (REPORT, false, REPORTED),
];

fn peer<R: Net<Stream = TcpStream>>(
    net: &R,
    to: SocketAddr,
    request: &str,
    ends: bool,
) -> io::Result<TcpStream> {
    let mut stream = TcpStream::connect(net, to)?;
    stream.write_all(request.as_bytes())?;
    if ends {
        stream.shutdown(Shutdown::Write)?;
    }
    Ok(stream)
}

fn peers<R: Net<Stream = TcpStream>>(
    net: &R,
    alloc: Global,
    to: SocketAddr,
) -> io::Result<Vec<TcpStream>> {
    let mut streams = Vec::new(alloc);
    for (request, ends, _) in PEERS.iter() {
        streams.push(peer(net, to, request, *ends)?)?;
    }
    Ok(streams)
}

fn assert_received(
    rt: &impl Abort,
    alloc: Global,
    stream: &TcpStream,
    wanted: &str,
) -> io::Result<()> {
    let mut reader = stream;
    let mut actual = String::new(alloc);
    reader.read_to_string(&mut actual)?;
    assert_text(rt, actual.as_str(), wanted);
    Ok(())
}

fn assert_all_received(rt: &impl Abort, alloc: Global, streams: &[TcpStream]) -> io::Result<()> {
    for (stream, (_, _, wanted)) in streams.iter().zip(PEERS.iter()) {
        assert_received(rt, alloc, stream, wanted)?;
    }
    Ok(())
}

fn four_are_served<R: Net<Stream = TcpStream> + Clock + Abort>(
    rt: &R,
    alloc: Global,
    listener: &TcpListener,
    service: &mut impl HttpService,
) -> io::Result<()> {
    let streams = peers(rt, alloc, listener.local_addr()?)?;
    let done = service.serve_each(alloc, rt, listener, 4);
    assert_true(rt, done.is_ok());
    assert_all_received(rt, alloc, &streams)
}

#[test]
fn over_a_socket(rt: HostRuntime) -> Result<(), Fail> {
    let Ok(listener) = TcpListener::bind(&rt, (Ipv4Addr::LOCALHOST, 0)) else {
        return Err(Fail::new("bind"));
    };
    let mut service = new_service(rt.alloc())?;
    let done = four_are_served(&rt, rt.alloc(), &listener, &mut service);
    let _conn = service.end();
    match done {
        Ok(()) => Ok(()),
        Err(_) => Err(Fail::new("a peer")),
    }
}

/// The listener doesn't wait and has no connection. No command is run: the faction that joins next
/// is the first.
fn assert_net_fault<R: Clock + Abort>(
    rt: &R,
    alloc: Global,
    listener: &TcpListener,
    service: &mut impl HttpService,
) -> io::Result<()> {
    listener.set_nonblocking(true)?;
    let done = service.serve_each(alloc, rt, listener, 4);
    assert_true(rt, done == Err(ListenFault::Net));
    assert_reply(rt, alloc, service, &mut JOIN.as_bytes(), JOINED);
    Ok(())
}

#[test]
fn no_connection_is_taken(rt: HostRuntime) -> Result<(), Fail> {
    let Ok(listener) = TcpListener::bind(&rt, (Ipv4Addr::LOCALHOST, 0)) else {
        return Err(Fail::new("bind"));
    };
    let mut service = new_service(rt.alloc())?;
    let done = assert_net_fault(&rt, rt.alloc(), &listener, &mut service);
    let _conn = service.end();
    match done {
        Ok(()) => Ok(()),
        Err(_) => Err(Fail::new("a listener that doesn't wait")),
    }
}
