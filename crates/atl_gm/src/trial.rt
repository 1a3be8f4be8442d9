//! The subcommand `trial`: founds a campaign in memory, lets a faction join, and prints its first
//! report.
use crate::failure::Failure;
use crate::files::text_on_input;
use crate::printing::print_answer;
use crate::subcommand::Subcommand;
use atl_service::{Answer, Refused, Service, found};
use atl_world::Sequence;
use clap::ArgMatches;
use sqlite::{Alter, Connection};
use std::alloc::{AllocError, Global};

fn join(alloc: Global) -> Result<atl_service::Command, Failure> {
    Ok(atl_service::Command::Join {
        name: Sequence::from_slice(alloc, b"Avalon")?,
        pass: Sequence::from_slice(alloc, b"pw")?,
        word: 0,
    })
}

/// Faction 1 is the first that joins.
fn report(alloc: Global) -> Result<atl_service::Command, Failure> {
    Ok(atl_service::Command::Report {
        faction: 1,
        pass: Sequence::from_slice(alloc, b"pw")?,
    })
}

fn report_after_join<S: Alter>(
    service: &mut Service<S>,
    join: &atl_service::Command,
    report: &atl_service::Command,
) -> Answer {
    match service.run(join) {
        Answer::Joined { .. } => service.run(report),
        other => other,
    }
}

fn first_report<S: Alter + Drop>(
    alloc: Global,
    conn: Connection<S>,
    world_text: &str,
    join: &atl_service::Command,
    report: &atl_service::Command,
) -> Result<Answer, Failure> {
    match found(alloc, conn, world_text, b"gm") {
        Ok(mut service) => Ok(report_after_join(&mut service, join, report)),
        Err(Refused { why, conn: _ }) => Err(Failure::from(why)),
    }
}

fn report_answer(alloc: Global, world_text: &str) -> Result<Answer, Failure> {
    let join = join(alloc)?;
    let report = report(alloc)?;
    let conn = Connection::open_in_memory(alloc)?;
    first_report(alloc, conn, world_text, &join, &report)
}

/// The subcommand `trial`, which founds a campaign in memory, has a faction join, and prints its
/// first report. The world text is standard input and the moderator's pass text `gm`; `Avalon`
/// joins with pass text `pw` and word 0.
pub struct Trial;

impl Subcommand for Trial {
    const NAME: &'static str = "trial";

    const ABOUT: &'static str =
        "Founds a campaign in memory by the world text on standard input, and prints a first report";

    fn run(rt: &HostRuntime, _options: &ArgMatches<'_>) -> Result<(), Failure> {
        let alloc = rt.alloc();
        let text = text_on_input(rt, alloc)?;
        let answer = report_answer(alloc, text.as_str())?;
        print_answer(rt, &answer)
    }
}
