//! Tests of the verdict on the first bytes of a request, before any command runs (docs/FORMATS.md,
//! "HTTP").
use crate::tests::compare::assert_text;
use atl_http::{Verdict, pieces_do_not_matter, verdict_on};
use std::alloc::{AllocError, Global};
use std::process::Abort;

/// The bytes read so far, and the verdict: more are needed, a refusal, or a whole request (`asks`).
static BYTES: [(&str, &str); 5] = [
    ("", "more"),
    ("GET /report/1 HTTP/1.0\r\n", "more"),
    (
        "POST /orders/1 HTTP/1.0\r\nAtlantis-Pass: pw\r\nContent-Length: 5\r\n\r\nUNIT",
        "more",
    ),
    (
        "GET /report/1 HTTP/1.0\r\nAtlantis-Pass: pw\r\n\r\n",
        "asks",
    ),
    ("GET /nowhere HTTP/1.0\r\n\r\nmore", "NoRoute"),
];

fn name_of(verdict: &Verdict) -> &'static str {
    match verdict {
        Verdict::More => "more",
        Verdict::Refused(problem) => problem.name(),
        Verdict::Asks(_) => "asks",
    }
}

fn assert_verdict(
    rt: &impl Abort,
    alloc: Global,
    bytes: &str,
    wanted: &str,
) -> Result<(), AllocError> {
    let verdict = verdict_on(alloc, bytes.as_bytes())?;
    assert_text(rt, name_of(&verdict), wanted);
    Ok(())
}

#[test]
fn bytes_are_judged(rt: HostRuntime) -> Result<(), AllocError> {
    for (bytes, wanted) in BYTES.iter() {
        assert_verdict(&rt, rt.alloc(), bytes, wanted)?;
    }
    Ok(())
}

#[test]
fn states_that_pieces_do_not_matter() {
    pieces_do_not_matter();
}
