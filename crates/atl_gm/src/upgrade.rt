//! The subcommand `upgrade`: upgrades a file of the first format to the second. See
//! docs/FORMATS.md, "Upgrading a file".
use crate::database::{Opening, Work, work_on};
use crate::failure::Failure;
use crate::files::text_at;
use crate::options;
use crate::printing::check_printed;
use crate::subcommand::Subcommand;
use atl_service::Service;
use clap::{Arg, ArgMatches};
use sqlite::Alter;
use std::alloc::{AllocError, Global};

/// The work of `upgrade` once the file is upgraded: counts the markets of all regions of its world.
struct CountMarkets;

impl Work for CountMarkets {
    type Done = usize;

    fn run<S: Alter>(&self, service: &mut Service<S>) -> Result<usize, Failure> {
        let mut markets: usize = 0;
        for (_, region) in service.world().regions().iter() {
            markets = markets.saturating_add(region.markets.len());
        }
        Ok(markets)
    }
}

/// The subcommand `upgrade`, which upgrades a campaign's file by a new world file and prints that
/// world's number of markets.
pub struct Upgrade;

impl Subcommand for Upgrade {
    const NAME: &'static str = "upgrade";

    const ABOUT: &'static str =
        "Upgrades a campaign of the first format, with a world that adds markets";

    fn options<'a>(alloc: Global) -> Result<Vec<Arg<'a>>, AllocError> {
        Ok(vec![in alloc;
            options::db(alloc),
            options::file(
                alloc,
                options::WORLD,
                "The file of the new world, which is the old one with markets, in TOML"
            ),
        ]?)
    }

    fn run(rt: &HostRuntime, options: &ArgMatches<'_>) -> Result<(), Failure> {
        let path = options::text_of(options, options::DB)?;
        let world = text_at(rt, options::text_of(options, options::WORLD)?)?;
        let opening = Opening::Upgraded {
            world: world.as_str(),
        };
        let markets = work_on(rt, path, opening, &CountMarkets)?;
        check_printed(println!(rt; "upgraded, {markets} markets"))
    }
}
