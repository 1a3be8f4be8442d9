//! The subcommand `found`: founds a campaign in a file. See docs/FORMATS.md, "The program".
use crate::database::{Opening, Work, work_on};
use crate::failure::Failure;
use crate::files::text_at;
use crate::options;
use crate::printing::check_printed;
use crate::subcommand::Subcommand;
use atl_service::Service;
use clap::{Arg, ArgMatches};
use sqlite::Alter;
use std::alloc::{AllocError, Global};

/// The work of `found` once the campaign is founded: counts the regions of its world.
struct CountRegions;

impl Work for CountRegions {
    type Done = usize;

    fn run<S: Alter>(&self, service: &mut Service<S>) -> Result<usize, Failure> {
        Ok(service.world().regions().len())
    }
}

/// The subcommand `found`, which founds a campaign by a world file and prints its number of
/// regions.
pub struct Found;

impl Subcommand for Found {
    const NAME: &'static str = "found";

    const ABOUT: &'static str = "Founds a campaign in a database file, which is made where none is";

    fn options<'a>(alloc: Global) -> Result<Vec<Arg<'a>>, AllocError> {
        Ok(vec![in alloc;
            options::file(alloc, options::WORLD, "The file of the world, in TOML"),
            options::file(
                alloc,
                options::DB,
                "The database file, which is made where none is"
            ),
            options::text(
                alloc,
                options::PASS,
                "The moderator's pass text, which closings will ask for"
            ),
        ]?)
    }

    fn run(rt: &HostRuntime, options: &ArgMatches<'_>) -> Result<(), Failure> {
        let world = text_at(rt, options::text_of(options, options::WORLD)?)?;
        let opening = Opening::Founded {
            world: world.as_str(),
            pass: options::text_of(options, options::PASS)?,
        };
        let regions = work_on(
            rt,
            options::text_of(options, options::DB)?,
            opening,
            &CountRegions,
        )?;
        check_printed(println!(rt; "founded, {regions} regions"))
    }
}
