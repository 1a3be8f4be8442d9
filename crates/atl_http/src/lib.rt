//! Serves a campaign over HTTP on loopback: runs the commands that requests ask for, and replies to
//! them. See docs/FORMATS.md, "HTTP".
#![tactic(auto)]

mod answering;
pub mod listening;
pub mod request;
pub mod serving;

pub use atl_requests::{
    Dice, FinalVerdict, HttpFault, Problem, Request, Route, Verdict, calls, dice, io, message,
    parsing, pieces, pieces_do_not_matter, problem, route, verdict_on,
};
pub use serving::{run_request, serve_one};
