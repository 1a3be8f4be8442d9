//! The traits of a subcommand and of a list of them, which makes the parser and picks what is run.
use crate::failure::Failure;
use clap::{Arg, ArgMatches, Command};
use std::alloc::{AllocError, Global};

/// A subcommand: its name, help and options on the command line, and what it does.
pub trait Subcommand {
    /// The word on the command line that names the subcommand.
    const NAME: &'static str;

    /// What the help says about the subcommand.
    const ABOUT: &'static str;

    /// The options of the subcommand; none unless it defines some.
    fn options<'a>(alloc: Global) -> Result<Vec<Arg<'a>>, AllocError> {
        Ok(Vec::new(alloc))
    }

    fn run(rt: &HostRuntime, options: &ArgMatches<'_>) -> Result<(), Failure>;
}

/// A list of subcommands: a pair of the first and the rest, or () where there is none.
pub trait Subcommands {
    /// Adds the parsers of these subcommands to a list.
    fn add_to<'a>(alloc: Global, parsers: &mut Vec<Command<'a>>) -> Result<(), AllocError>;

    /// Runs the subcommand of this name in the list; NoSubcommand if there is none.
    fn run(rt: &HostRuntime, name: &str, options: &ArgMatches<'_>) -> Result<(), Failure>;
}

fn command_of<'a, S: Subcommand>(alloc: Global) -> Result<Command<'a>, AllocError> {
    let name: &'a str = S::NAME;
    let about: &'a str = S::ABOUT;
    let options = S::options(alloc)?;
    Command::new(alloc, name).about(about).args(options)
}

/// The empty list: adds no parser, and every name gives NoSubcommand.
impl Subcommands for () {
    fn add_to<'a>(_alloc: Global, _parsers: &mut Vec<Command<'a>>) -> Result<(), AllocError> {
        Ok(())
    }

    fn run(_rt: &HostRuntime, _name: &str, _options: &ArgMatches<'_>) -> Result<(), Failure> {
        Err(Failure::NoSubcommand)
    }
}

/// A list of a first subcommand and others: adds its parser before theirs, and runs it if it has
/// the name.
impl<First: Subcommand, Rest: Subcommands> Subcommands for (First, Rest) {
    fn add_to<'a>(alloc: Global, parsers: &mut Vec<Command<'a>>) -> Result<(), AllocError> {
        parsers.push(command_of::<First>(alloc)?)?;
        Rest::add_to(alloc, parsers)
    }

    fn run(rt: &HostRuntime, name: &str, options: &ArgMatches<'_>) -> Result<(), Failure> {
        if name == First::NAME {
            return First::run(rt, options);
        }
        Rest::run(rt, name, options)
    }
}
