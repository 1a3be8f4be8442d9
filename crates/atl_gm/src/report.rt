//! The subcommand `report`: prints a faction's stored report.
use crate::failure::Failure;
use crate::options;
use crate::printing::print_answer_of;
use crate::subcommand::Subcommand;
use atl_world::Sequence;
use clap::{Arg, ArgMatches};
use std::alloc::{AllocError, Global};

fn report_command(
    rt: &HostRuntime,
    options: &ArgMatches<'_>,
) -> Result<atl_service::Command, Failure> {
    let faction = options::number_of(options, options::FACTION)?;
    let pass = options::text_of(options, options::PASS)?;
    Ok(atl_service::Command::Report {
        faction,
        pass: Sequence::from_slice(rt.alloc(), pass.as_bytes())?,
    })
}

pub struct Report;

impl Subcommand for Report {
    const NAME: &'static str = "report";

    const ABOUT: &'static str = "Prints a faction's report";

    fn options<'a>(alloc: Global) -> Result<Vec<Arg<'a>>, AllocError> {
        Ok(vec![in alloc;
            options::db(alloc),
            options::faction(alloc),
            options::faction_pass(alloc),
        ]?)
    }

    fn run(rt: &HostRuntime, options: &ArgMatches<'_>) -> Result<(), Failure> {
        let request = report_command(rt, options)?;
        print_answer_of(rt, options, &request)
    }
}
