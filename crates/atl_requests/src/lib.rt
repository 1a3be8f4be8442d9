//! Receives requests over HTTP, and writes the bytes of replies and sends them, whatever runs the
//! commands. Also has the dice, which give random words. See docs/FORMATS.md, "HTTP".
#![tactic(auto)]

pub mod bodies;
pub mod calls;
pub mod dice;
pub mod io;
pub mod message;
pub mod patience;
pub mod pieces;

pub use atl_parsing::{
    FinalVerdict, Problem, Request, Route, Verdict, parsing, problem, request, route, verdict_on,
};
pub use dice::Dice;
pub use io::HttpFault;
pub use pieces::pieces_do_not_matter;
