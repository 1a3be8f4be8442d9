//! Tests that a campaign at its limits of months and units refuses a join and a closing over HTTP.
use super::making::{Case, assert_replies, new_service};
use super::requests::JOIN;
use atl_service::{Service, open};
use sqlite::MemStore;
use std::alloc::Global;
use std::test::Fail;

/// SQL that sets a campaign to its limits: the last month is closed, and the last unit number used.
const LIMITS: &str = "UPDATE campaign SET month = 9999, next_unit = 1000000000";

static AT_LIMITS: [Case; 2] = [
    (
        JOIN,
        "HTTP/1.1 409 Conflict\r\nContent-Type: application/json\r\nContent-Length: 27\r\nConnection: close\r\n\r\n{\"error\":\"Full\",\"number\":4}",
    ),
    (
        "POST /close/10000 HTTP/1.1\r\nHost: x\r\nAtlantis-Pass: gm\r\n\r\n",
        "HTTP/1.1 409 Conflict\r\nContent-Type: application/json\r\nContent-Length: 34\r\nConnection: close\r\n\r\n{\"error\":\"MonthLimit\",\"number\":13}",
    ),
];

fn changed_service(alloc: Global, sql: &str) -> Result<Service<MemStore>, Fail> {
    let mut conn = new_service(alloc)?.end();
    conn.execute_batch(sql)?;
    match open(alloc, conn) {
        Ok(service) => Ok(service),
        Err(_) => Err(Fail::new("open")),
    }
}

#[test]
fn at_the_limits(rt: HostRuntime) -> Result<(), Fail> {
    let mut service = changed_service(rt.alloc(), LIMITS)?;
    assert_replies(&rt, rt.alloc(), &mut service, &AT_LIMITS);
    let _conn = service.end();
    Ok(())
}
