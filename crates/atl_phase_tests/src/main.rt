//! Tests the phases of a month by files of cases: a campaign, mailings, and the expected result
//! (data/README.md says how a file is written). Plays each file of the command line, and prints
//! each case whose result differs.
#![tactic(auto)]

mod bookings;
mod cases;
mod changes;
mod failed;
mod lines;
mod months;
mod runs;
mod script;
mod settings;

use crate::failed::Failed;
use std::{env, io};

fn run(rt: &HostRuntime) -> io::Result<()> {
    let words: Vec<String> = env::args(rt)?.collect(rt.alloc())?;
    for path in words.iter().skip(1) {
        match cases::report_on_file(rt, path.as_str()) {
            Ok(output) => rt.print(output)?,
            Err(Failed(why)) => println!(rt; "{}: {why}", path.as_str())?,
        }
    }
    Ok(())
}

fn main(rt: HostRuntime) -> io::Result<()> {
    run(&rt)
}
