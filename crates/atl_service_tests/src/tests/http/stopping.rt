//! Tests of a disk that stops while a faction joins: the join is answered with the fault Store, and
//! each later request with Closed.
use super::making::{Case, assert_replies};
use super::requests::{JOIN, REPORT};
use atl_service::found;
use atl_test_worlds::SMALL_WORLD;
use sqlite::{Connection, FileStore, Options};
use sqlite_disk::{Disk, Files, Fuse, Memory};
use std::alloc::Global;
use std::process::Abort;
use std::test::Fail;

const STORE: &str =
    "HTTP/1.1 500 Internal Server Error\r\nContent-Type: application/json\r\nContent-Length: 28\r\nConnection: close\r\n\r\n{\"error\":\"Store\",\"number\":0}";

const CLOSED: &str =
    "HTTP/1.1 500 Internal Server Error\r\nContent-Type: application/json\r\nContent-Length: 29\r\nConnection: close\r\n\r\n{\"error\":\"Closed\",\"number\":0}";

/// A join at which the disk stops, and two requests after it.
static STOPPED: [Case; 3] = [(JOIN, STORE), (JOIN, CLOSED), (REPORT, CLOSED)];

/// None if the disk stops before it is open.
fn open<D: Disk + Drop>(alloc: Global, files: Files<D>) -> Option<Connection<FileStore<D>>> {
    if !files.may_be_used() {
        return None;
    }
    Connection::open_files(alloc, files, Options::new(1)).ok()
}

/// False if the disk stopped before the campaign was founded.
fn stops<D: Disk + Drop>(rt: &impl Abort, alloc: Global, files: Files<D>) -> bool {
    let Some(conn) = open(alloc, files) else {
        return false;
    };
    let Ok(mut service) = found(alloc, conn, SMALL_WORLD, b"gm") else {
        return false;
    };
    assert_replies(rt, alloc, &mut service, &STOPPED);
    let _conn = service.end();
    true
}

fn stopping_files(alloc: Global, calls: u64) -> Files<Fuse<Memory>> {
    Files {
        log: Fuse::new(Memory::new(alloc), calls),
        db: Fuse::new(Memory::new(alloc), u64::MAX),
    }
}

/// A number of calls of the log that is too low for a founding and a join; a few more are enough
/// for the founding.
const FEW_CALLS: u64 = 24;

/// A join at which the disk stops is answered Store, and later requests Closed. The disk stops one
/// call later each time, until a campaign is founded: then the next call is the join's.
#[test]
fn a_disk_that_stops(rt: HostRuntime) -> Result<(), Fail> {
    for calls in FEW_CALLS..FEW_CALLS + 8 {
        if stops(&rt, rt.alloc(), stopping_files(rt.alloc(), calls)) {
            return Ok(());
        }
    }
    Err(Fail::new("stopped each time"))
}
