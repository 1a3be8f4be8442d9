//! Prints the answers to commands on standard output. See docs/FORMATS.md, "The program".
use crate::database::{Opening, Work, work_on};
use crate::failure::Failure;
use crate::options;
use atl_orders::FaultyLine;
use atl_service::{Answer, Fault};
use clap::ArgMatches;
use std::io;

/// Turns an error of printing into the failure Output.
pub fn check_printed(written: io::Result<()>) -> Result<(), Failure> {
    match written {
        Ok(()) => Ok(()),
        Err(_) => Err(Failure::Output),
    }
}

fn print_line<R: Print>(rt: &R, faulty: &FaultyLine) -> io::Result<()> {
    let line = faulty.line;
    let number = faulty.fault.number();
    let name = faulty.fault.name();
    println!(rt; "line {line}: {number} {name}")
}

fn print_mailing<R: Print>(rt: &R, orders: usize, faults: &[FaultyLine]) -> io::Result<()> {
    let count = faults.len();
    println!(rt; "{orders} orders, {count} faults")?;
    for faulty in faults {
        print_line(rt, faulty)?;
    }
    Ok(())
}

/// Does the work on the campaign of the file that the option `db` names, and prints the answer.
pub fn print_answer_of<W: Work<Done = Answer>>(
    rt: &HostRuntime,
    options: &ArgMatches<'_>,
    work: &W,
) -> Result<(), Failure> {
    let path = options::text_of(options, options::DB)?;
    let answer = work_on(rt, path, Opening::Kept, work)?;
    print_answer(rt, &answer)
}

/// Prints the answer to a command that was carried out; returns a refusal or a fault as a failure
/// (Closed as Memory), and prints nothing of it.
pub fn print_answer<R: Print>(rt: &R, answer: &Answer) -> Result<(), Failure> {
    match answer {
        Answer::Joined { faction, unit } => check_printed(println!(rt;
            "faction {faction}, unit {unit}"
        )),
        Answer::Mailed { orders, faults } => check_printed(print_mailing(
            rt,
            *orders,
            faults.as_slice(),
        )),
        Answer::MonthDone { month } => check_printed(println!(rt; "month {month} closed")),
        Answer::Text(text) => check_printed(rt.print(text.as_str())),
        Answer::Refused(refusal) => Err(Failure::Refused(*refusal)),
        Answer::Fault(Fault::Store) => Err(Failure::Store),
        Answer::Fault(_) => Err(Failure::Memory),
    }
}
