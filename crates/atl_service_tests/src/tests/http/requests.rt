//! Tests of requests with their whole replies (docs/FORMATS.md, "HTTP").
use super::making::{Case, play};
use std::alloc::Global;
use std::process::Abort;
use std::test::Fail;

pub(crate) const JOIN: &str =
    "POST /join HTTP/1.1\r\nHost: x\r\nContent-Length: 29\r\n\r\n{\"name\":\"Avalon\",\"pass\":\"pw\"}";

pub(crate) const JOINED: &str =
    "HTTP/1.1 200 OK\r\nContent-Type: application/json\r\nContent-Length: 22\r\nConnection: close\r\n\r\n{\"faction\":1,\"unit\":1}";

pub(crate) const REPORT: &str = "GET /report/1 HTTP/1.1\r\nHost: x\r\nAtlantis-Pass: pw\r\n\r\n";

pub(crate) const REPORTED: &str =
    "HTTP/1.1 200 OK\r\nContent-Type: text/plain\r\nContent-Length: 161\r\nConnection: close\r\n\r\nAtlantis report, month 0, faction 1 \"Avalon\".
Orders:
None.
Region 1 \"Vale\", plain: 1000 peasants, 500 money.
Exits: none.
* Unit 1 \"Unit 1\": 1 men, 1000 money.
";

pub(crate) const BAD_REQUEST: &str =
    "HTTP/1.1 400 Bad Request\r\nContent-Type: application/json\r\nContent-Length: 33\r\nConnection: close\r\n\r\n{\"error\":\"BadRequest\",\"number\":0}";

pub(crate) const NO_ROUTE: &str =
    "HTTP/1.1 404 Not Found\r\nContent-Type: application/json\r\nContent-Length: 30\r\nConnection: close\r\n\r\n{\"error\":\"NoRoute\",\"number\":0}";

/// The reply to another method than POST on a route that takes only POST.
const POST_ONLY: &str =
    "HTTP/1.1 405 Method Not Allowed\r\nContent-Type: application/json\r\nContent-Length: 32\r\nConnection: close\r\nAllow: POST\r\n\r\n{\"error\":\"BadMethod\",\"number\":0}";

/// The reply to another method than GET on a route that takes only GET.
const GET_ONLY: &str =
    "HTTP/1.1 405 Method Not Allowed\r\nContent-Type: application/json\r\nContent-Length: 32\r\nConnection: close\r\nAllow: GET\r\n\r\n{\"error\":\"BadMethod\",\"number\":0}";

const NO_LENGTH: &str =
    "HTTP/1.1 411 Length Required\r\nContent-Type: application/json\r\nContent-Length: 31\r\nConnection: close\r\n\r\n{\"error\":\"NoLength\",\"number\":0}";

pub(crate) const TOO_LONG: &str =
    "HTTP/1.1 413 Payload Too Large\r\nContent-Type: application/json\r\nContent-Length: 34\r\nConnection: close\r\n\r\n{\"error\":\"BodyTooLong\",\"number\":0}";

const NO_PASS: &str =
    "HTTP/1.1 400 Bad Request\r\nContent-Type: application/json\r\nContent-Length: 29\r\nConnection: close\r\n\r\n{\"error\":\"NoPass\",\"number\":0}";

pub(crate) const BAD_JSON: &str =
    "HTTP/1.1 400 Bad Request\r\nContent-Type: application/json\r\nContent-Length: 30\r\nConnection: close\r\n\r\n{\"error\":\"BadJson\",\"number\":0}";

/// Requests and their replies: a faction joins, its name is taken from then on, and its report is
/// answered. An empty Host counts as one, HTTP/1.0 may have two, and for a GET neither
/// Content-Length nor Transfer-Encoding counts.
static JOINING: [Case; 6] = [
    (JOIN, JOINED),
    (
        JOIN,
        "HTTP/1.1 409 Conflict\r\nContent-Type: application/json\r\nContent-Length: 32\r\nConnection: close\r\n\r\n{\"error\":\"NameTaken\",\"number\":3}",
    ),
    (REPORT, REPORTED),
    (
        "GET /report/1?a=b HTTP/1.0\r\natlantis-pass: \tpw \r\nContent-Length: x\r\nTransfer-Encoding: chunked\r\n\r\n",
        REPORTED,
    ),
    (
        "GET /report/000000001 HTTP/1.1\r\nHost:\r\nAtlantis-Pass: pw\r\n\r\n",
        REPORTED,
    ),
    (
        "GET /report/1 HTTP/1.0\r\nHost: x\r\nHost: y\r\nAtlantis-Pass: pw\r\n\r\n",
        REPORTED,
    ),
];

/// Requests and their replies: a faction joins and sends orders, a month is closed, and a second
/// closing of it is refused.
static A_MONTH: [Case; 4] = [
    (JOIN, JOINED),
    (
        "POST /orders/1 HTTP/1.1\r\nHost: x\r\nAtlantis-Pass: pw\r\nContent-Length: 34\r\n\r\n#ATLANTIS 1\nUNIT 1\nATTACK 2\nwork\nx",
        "HTTP/1.1 200 OK\r\nContent-Type: application/json\r\nContent-Length: 35\r\nConnection: close\r\n\r\n{\"faults\":[[3,2],[5,2]],\"orders\":1}",
    ),
    (
        "POST /close/1 HTTP/1.1\r\nHost: x\r\nAtlantis-Pass: gm\r\n\r\n",
        "HTTP/1.1 200 OK\r\nContent-Type: application/json\r\nContent-Length: 11\r\nConnection: close\r\n\r\n{\"month\":1}",
    ),
    (
        "POST /close/1 HTTP/1.1\r\nHost: x\r\nAtlantis-Pass: gm\r\nContent-Length: 0\r\n\r\n",
        "HTTP/1.1 409 Conflict\r\nContent-Type: application/json\r\nContent-Length: 34\r\nConnection: close\r\n\r\n{\"error\":\"WrongMonth\",\"number\":12}",
    ),
];

/// Requests and their replies: a faction joins, quits by its orders, and is refused further orders
/// after the month.
static QUITTING: [Case; 4] = [
    (JOIN, JOINED),
    (
        "POST /orders/1 HTTP/1.1\r\nHost: x\r\nAtlantis-Pass: pw\r\nContent-Length: 25\r\n\r\n#ATLANTIS 1\nUNIT 1\nQUIT 1",
        "HTTP/1.1 200 OK\r\nContent-Type: application/json\r\nContent-Length: 24\r\nConnection: close\r\n\r\n{\"faults\":[],\"orders\":1}",
    ),
    (
        "POST /close/1 HTTP/1.1\r\nHost: x\r\nAtlantis-Pass: gm\r\n\r\n",
        "HTTP/1.1 200 OK\r\nContent-Type: application/json\r\nContent-Length: 11\r\nConnection: close\r\n\r\n{\"month\":1}",
    ),
    (
        "POST /orders/1 HTTP/1.1\r\nHost: x\r\nAtlantis-Pass: pw\r\nContent-Length: 11\r\n\r\n#ATLANTIS 1",
        "HTTP/1.1 403 Forbidden\r\nContent-Type: application/json\r\nContent-Length: 27\r\nConnection: close\r\n\r\n{\"error\":\"Gone\",\"number\":7}",
    ),
];

/// Requests with their replies: joins, reports, closings and mailings, all but one join refused.
static REFUSALS: [Case; 9] = [
    (
        "POST /join HTTP/1.1\r\nHost: x\r\nContent-Length: 24\r\n\r\n{\"name\":\" x\",\"pass\":\"p\"}",
        "HTTP/1.1 400 Bad Request\r\nContent-Type: application/json\r\nContent-Length: 30\r\nConnection: close\r\n\r\n{\"error\":\"BadName\",\"number\":1}",
    ),
    (
        "POST /join HTTP/1.1\r\nHost: x\r\nContent-Length: 24\r\n\r\n{\"name\":\"A\",\"pass\":\"a b\"}",
        BAD_JSON,
    ),
    (
        "POST /join HTTP/1.1\r\nHost: x\r\nContent-Length: 25\r\n\r\n{\"name\":\"A\",\"pass\":\"a b\"}",
        "HTTP/1.1 400 Bad Request\r\nContent-Type: application/json\r\nContent-Length: 34\r\nConnection: close\r\n\r\n{\"error\":\"BadPassText\",\"number\":2}",
    ),
    (
        "GET /report/9 HTTP/1.1\r\nHost: x\r\nAtlantis-Pass: pw\r\n\r\n",
        "HTTP/1.1 404 Not Found\r\nContent-Type: application/json\r\nContent-Length: 32\r\nConnection: close\r\n\r\n{\"error\":\"NoFaction\",\"number\":5}",
    ),
    (
        "POST /close/1 HTTP/1.1\r\nHost: x\r\nAtlantis-Pass: no\r\n\r\n",
        "HTTP/1.1 403 Forbidden\r\nContent-Type: application/json\r\nContent-Length: 32\r\nConnection: close\r\n\r\n{\"error\":\"WrongPass\",\"number\":6}",
    ),
    (JOIN, JOINED),
    (
        "POST /orders/1 HTTP/1.1\r\nHost: x\r\nAtlantis-Pass: pw\r\nContent-Length: 5\r\n\r\nhello",
        "HTTP/1.1 400 Bad Request\r\nContent-Type: application/json\r\nContent-Length: 31\r\nConnection: close\r\n\r\n{\"error\":\"NoHeader\",\"number\":9}",
    ),
    (
        "POST /orders/1 HTTP/1.1\r\nHost: x\r\nAtlantis-Pass: pw\r\nContent-Length: 11\r\n\r\n#ATLANTIS x",
        "HTTP/1.1 400 Bad Request\r\nContent-Type: application/json\r\nContent-Length: 33\r\nConnection: close\r\n\r\n{\"error\":\"BadHeader\",\"number\":10}",
    ),
    (
        "POST /orders/1 HTTP/1.1\r\nHost: x\r\nAtlantis-Pass: pw\r\nContent-Length: 11\r\n\r\n#ATLANTIS 2",
        "HTTP/1.1 409 Conflict\r\nContent-Type: application/json\r\nContent-Length: 36\r\nConnection: close\r\n\r\n{\"error\":\"WrongFaction\",\"number\":11}",
    ),
];

/// Heads of requests with their replies: refused ones, some with a wrong number of Host fields, and
/// one that is cut short.
static HEADS: [Case; 6] = [
    ("\u{1}", BAD_REQUEST),
    ("GET /report/1 HTTP/2.0\r\n\r\n", BAD_REQUEST),
    (
        "GET /report/1 HTTP/1.1\r\nAtlantis-Pass: pw\r\n\r\n",
        BAD_REQUEST,
    ),
    (
        "GET /report/1 HTTP/1.1\r\nHost: x\r\nhost: x\r\nAtlantis-Pass: pw\r\n\r\n",
        BAD_REQUEST,
    ),
    ("GET /nowhere HTTP/1.1\r\n\r\n", BAD_REQUEST),
    ("GET /report/1", "cut"),
];

/// Requests with their replies: paths without a route, and methods that a route doesn't have.
static ROUTES: [Case; 13] = [
    ("GET / HTTP/1.0\r\n\r\n", NO_ROUTE),
    ("GET /report/1234567890 HTTP/1.0\r\n\r\n", NO_ROUTE),
    ("GET /report/ HTTP/1.0\r\n\r\n", NO_ROUTE),
    ("GET /report/1/ HTTP/1.0\r\n\r\n", NO_ROUTE),
    ("GET /report/+1 HTTP/1.0\r\n\r\n", NO_ROUTE),
    ("GET /report/%31 HTTP/1.0\r\n\r\n", NO_ROUTE),
    ("GET /orders/x HTTP/1.0\r\n\r\n", NO_ROUTE),
    ("GET /joins HTTP/1.0\r\n\r\n", NO_ROUTE),
    ("POST http://x/join HTTP/1.0\r\n\r\n", NO_ROUTE),
    ("GET /orders/1 HTTP/1.0\r\n\r\n", POST_ONLY),
    ("GET /join HTTP/1.0\r\n\r\n", POST_ONLY),
    ("DELETE /close/1 HTTP/1.0\r\n\r\n", POST_ONLY),
    ("POST /report/1 HTTP/1.0\r\n\r\n", GET_ONLY),
];

/// Requests with their replies: bodies without a good length or with two, no or several pass texts,
/// and three bodies that don't arrive.
static LENGTHS: [Case; 14] = [
    ("POST /join HTTP/1.0\r\n\r\n", NO_LENGTH),
    (
        "POST /join HTTP/1.0\r\nTransfer-Encoding: chunked\r\nContent-Length: x\r\n\r\n",
        NO_LENGTH,
    ),
    (
        "POST /close/1 HTTP/1.0\r\nTransfer-Encoding: chunked\r\nAtlantis-Pass: gm\r\n\r\n",
        NO_LENGTH,
    ),
    (
        "POST /join HTTP/1.0\r\nContent-Length: 65537\r\n\r\n",
        TOO_LONG,
    ),
    (
        "POST /join HTTP/1.0\r\nContent-Length: 1\r\nContent-Length: 1\r\n\r\n",
        BAD_REQUEST,
    ),
    (
        "POST /join HTTP/1.1\r\nHost: x\r\nContent-Length: 29\r\nContent-Length: 29\r\n\r\n{\"name\":\"Avalon\",\"pass\":\"pw\"}",
        BAD_REQUEST,
    ),
    (
        "POST /join HTTP/1.0\r\nContent-Length: 1234567890\r\n\r\n",
        BAD_REQUEST,
    ),
    (
        "POST /join HTTP/1.0\r\nContent-Length: +1\r\n\r\n",
        BAD_REQUEST,
    ),
    (
        "POST /join HTTP/1.0\r\nContent-Length:\r\n\r\n",
        BAD_REQUEST,
    ),
    (
        "POST /orders/1 HTTP/1.0\r\nContent-Length: 1\r\n\r\n",
        NO_PASS,
    ),
    (
        "GET /report/1 HTTP/1.0\r\nAtlantis-Pass: pw\r\nAtlantis-Pass: pw\r\n\r\n",
        NO_PASS,
    ),
    (
        "POST /join HTTP/1.0\r\nContent-Length: 65536\r\n\r\n",
        "cut",
    ),
    ("POST /join HTTP/1.0\r\nContent-Length: 1\r\n\r\n", "cut"),
    (
        "POST /close/1 HTTP/1.0\r\nAtlantis-Pass: gm\r\nContent-Length: 1\r\n\r\n",
        "cut",
    ),
];

/// Joins with their replies: bodies that are no JSON object with the texts `name` and `pass`, and
/// one that is. Of equal keys the last counts, and bytes after the body don't.
static BODIES: [Case; 9] = [
    ("POST /join HTTP/1.0\r\nContent-Length: 0\r\n\r\n", BAD_JSON),
    (
        "POST /join HTTP/1.0\r\nContent-Length: 2\r\n\r\n[]",
        BAD_JSON,
    ),
    (
        "POST /join HTTP/1.0\r\nContent-Length: 2\r\n\r\n{}",
        BAD_JSON,
    ),
    (
        "POST /join HTTP/1.0\r\nContent-Length: 12\r\n\r\n{\"name\":\"A\"}",
        BAD_JSON,
    ),
    (
        "POST /join HTTP/1.0\r\nContent-Length: 21\r\n\r\n{\"name\":\"A\",\"pass\":1}",
        BAD_JSON,
    ),
    (
        "POST /join HTTP/1.0\r\nContent-Length: 22\r\n\r\n{\"name\":1,\"pass\":\"pw\"}",
        BAD_JSON,
    ),
    (
        "POST /join HTTP/1.0\r\nContent-Length: 6\r\n\r\n\"name\"",
        BAD_JSON,
    ),
    (
        "POST /join HTTP/1.0\r\nContent-Length: 1\r\n\r\n{",
        BAD_JSON,
    ),
    (
        "POST /join HTTP/1.0\nContent-Length: 54\n\n{\"pass\":1,\"pass\":\"pw\",\"more\":[1,{}],\"name\":\"Avalon\" }\r\n",
        JOINED,
    ),
];

/// Joins with their replies: bodies with `name`, `pass` and a value that can't be read: one nested
/// 128 deep, a number beyond 64-bit floats, or a lone surrogate. A value nested 127 deep is read,
/// and empty lines may come before a head.
static VALUES: [Case; 4] = [
    (
        "POST /join HTTP/1.0\r\nContent-Length: 291\r\n\r\n{\"name\":\"Avalon\",\"pass\":\"pw\",\"more\":[[[[[[[[[[[[[[[[[[[[[[[[[[[[[[[[[[[[[[[[[[[[[[[[[[[[[[[[[[[[[[[[[[[[[[[[[[[[[[[[[[[[[[[[[[[[[[[[[[[[[[[[[[[[[[[[[[[[[[[[[[[[[[[]]]]]]]]]]]]]]]]]]]]]]]]]]]]]]]]]]]]]]]]]]]]]]]]]]]]]]]]]]]]]]]]]]]]]]]]]]]]]]]]]]]]]]]]]]]]]]]]]]]]]]]]]]]]]]]]]]]]]]]]]]]]]]]}",
        BAD_JSON,
    ),
    (
        "POST /join HTTP/1.0\r\nContent-Length: 42\r\n\r\n{\"name\":\"Avalon\",\"pass\":\"pw\",\"more\":1e999}",
        BAD_JSON,
    ),
    (
        "POST /join HTTP/1.0\r\nContent-Length: 45\r\n\r\n{\"name\":\"Avalon\",\"pass\":\"pw\",\"more\":\"\\ud800\"}",
        BAD_JSON,
    ),
    (
        "\r\n\nPOST /join HTTP/1.0\r\nContent-Length: 289\r\n\r\n{\"name\":\"Avalon\",\"pass\":\"pw\",\"more\":[[[[[[[[[[[[[[[[[[[[[[[[[[[[[[[[[[[[[[[[[[[[[[[[[[[[[[[[[[[[[[[[[[[[[[[[[[[[[[[[[[[[[[[[[[[[[[[[[[[[[[[[[[[[[[[[[[[[[[[[[[[[[[]]]]]]]]]]]]]]]]]]]]]]]]]]]]]]]]]]]]]]]]]]]]]]]]]]]]]]]]]]]]]]]]]]]]]]]]]]]]]]]]]]]]]]]]]]]]]]]]]]]]]]]]]]]]]]]]]]]]]]]]]]]]]]}",
        JOINED,
    ),
];

/// The requests of one table go to one service, one after another.
fn tables() -> [&'static [Case]; 9] {
    [
        &JOINING, &A_MONTH, &QUITTING, &REFUSALS, &HEADS, &ROUTES, &LENGTHS, &BODIES, &VALUES,
    ]
}

fn play_all(rt: &impl Abort, alloc: Global) -> Result<(), Fail> {
    for cases in tables().iter() {
        play(rt, alloc, cases)?;
    }
    Ok(())
}

#[test]
fn requests_have_their_replies(rt: HostRuntime) -> Result<(), Fail> {
    play_all(&rt, rt.alloc())
}
