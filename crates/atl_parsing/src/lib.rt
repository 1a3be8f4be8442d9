//! Reads the bytes of a request over HTTP as a request, or its problem. See docs/FORMATS.md, "HTTP".
#![tactic(auto)]

mod checks;
mod fields;
pub mod parsing;
pub mod problem;
pub mod request;
pub mod route;

pub use parsing::verdict_on;
pub use problem::Problem;
pub use request::{FinalVerdict, Request, Verdict};
pub use route::Route;
