//! Tests of requests with bytes that are not UTF-8.
use super::making::{assert_reply, new_service};
use super::requests::{BAD_JSON, BAD_REQUEST, JOIN, JOINED};
use super::serving::HttpService;
use std::alloc::Global;
use std::process::Abort;
use std::test::Fail;

const NO_HEADER: &str =
    "HTTP/1.1 400 Bad Request\r\nContent-Type: application/json\r\nContent-Length: 31\r\nConnection: close\r\n\r\n{\"error\":\"NoHeader\",\"number\":9}";

/// Requests with bytes 255 in the target, a field's name, a field's value and the body, and their
/// replies.
static CASES: [(&[u8], &str); 6] = [
    (b"GET /\xff HTTP/1.0\r\n\r\n", BAD_REQUEST),
    (b"GET /report/1?\xff HTTP/1.0\r\n\r\n", BAD_REQUEST),
    (b"GET /report/1 HTTP/1.0\r\n\xff: x\r\n\r\n", BAD_REQUEST),
    (
        b"POST /join HTTP/1.0\r\nContent-Length: 2\r\n\r\n\xff\xff",
        BAD_JSON,
    ),
    (
        b"POST /join HTTP/1.0\r\nA: \xff\r\nContent-Length: 23\r\n\r\n{\"name\":\"\xff\",\"pass\":\"p\"}",
        BAD_JSON,
    ),
    (
        b"POST /orders/1 HTTP/1.0\r\nAtlantis-Pass: pw\r\nContent-Length: 2\r\n\r\n\xff\xff",
        NO_HEADER,
    ),
];

fn assert_bad_bytes(rt: &impl Abort, alloc: Global, service: &mut impl HttpService) {
    assert_reply(rt, alloc, service, &mut JOIN.as_bytes(), JOINED);
    for (request, wanted) in CASES.iter() {
        let mut reader = *request;
        assert_reply(rt, alloc, service, &mut reader, wanted);
    }
}

#[test]
fn no_text(rt: HostRuntime) -> Result<(), Fail> {
    let mut service = new_service(rt.alloc())?;
    assert_bad_bytes(&rt, rt.alloc(), &mut service);
    let _conn = service.end();
    Ok(())
}
