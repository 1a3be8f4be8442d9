//! The options of the subcommands, and their values. Each takes a value and has to be given.
use crate::failure::Failure;
use atl_http::Dice;
use clap::{Arg, ArgMatches, value_parser};
use std::alloc::Global;

/// The name of the option for the file of the campaign.
pub const DB: &str = "db";

pub const WORLD: &str = "world";

/// The name of the option for the file of a mailing.
pub const FILE: &str = "file";

pub const PASS: &str = "pass";

/// The name of the option for the name of a faction that joins.
pub const NAME: &str = "name";

pub const FACTION: &str = "faction";

pub const MONTH: &str = "month";

pub const PORT: &str = "port";

/// The name of the option for how many connections `serve` serves.
pub const COUNT: &str = "count";

pub const SEED: &str = "seed";

const SEED_HELP: &str = "The number that the campaign's dice come from: keep to the same one";

/// The option `name`, whose value is a text; `help` is what the help says of it.
pub fn text<'a>(alloc: Global, name: &'a str, help: &'a str) -> Arg<'a> {
    Arg::new(alloc, name)
        .long(name)
        .value_name("TEXT")
        .required(true)
        .help(help)
}

/// The option `name`, whose value is the path of a file; `help` is what the help says of it.
pub fn file<'a>(alloc: Global, name: &'a str, help: &'a str) -> Arg<'a> {
    text(alloc, name, help).value_name("FILE")
}

/// The option `name`, whose value is a number of 32 bits; `help` is what the help says of it.
pub fn number<'a>(alloc: Global, name: &'a str, help: &'a str) -> Arg<'a> {
    text(alloc, name, help)
        .value_name("N")
        .value_parser(value_parser!(u32))
}

/// The option `name`, whose value is the number of a port; `help` is what the help says of it.
pub fn port<'a>(alloc: Global, name: &'a str, help: &'a str) -> Arg<'a> {
    text(alloc, name, help)
        .value_name("N")
        .value_parser(value_parser!(u16))
}

fn long_number<'a>(alloc: Global, name: &'a str, help: &'a str) -> Arg<'a> {
    text(alloc, name, help)
        .value_name("N")
        .value_parser(value_parser!(u64))
}

pub fn db<'a>(alloc: Global) -> Arg<'a> {
    file(alloc, DB, "The database file of the campaign")
}

pub fn faction<'a>(alloc: Global) -> Arg<'a> {
    number(
        alloc,
        FACTION,
        "The number that the faction got as it joined",
    )
}

/// The option for the pass text of a faction that has joined.
pub fn faction_pass<'a>(alloc: Global) -> Arg<'a> {
    text(alloc, PASS, "The pass text that the faction joined with")
}

pub fn seed<'a>(alloc: Global) -> Arg<'a> {
    long_number(alloc, SEED, SEED_HELP)
}

/// The text that was given for the option `name`; NoValue without one.
pub fn text_of<'a>(options: &ArgMatches<'a>, name: &str) -> Result<&'a str, Failure> {
    options.get_str(name).ok_or(Failure::NoValue)
}

/// The number of 32 bits that was given for the option `name`; NoValue without one.
pub fn number_of(options: &ArgMatches<'_>, name: &str) -> Result<u32, Failure> {
    options.get_one(name).ok_or(Failure::NoValue)
}

/// The port that was given for the option `name`; NoValue without one.
pub fn port_of(options: &ArgMatches<'_>, name: &str) -> Result<u16, Failure> {
    options.get_one(name).ok_or(Failure::NoValue)
}

fn long_number_of(options: &ArgMatches<'_>, name: &str) -> Result<u64, Failure> {
    options.get_one(name).ok_or(Failure::NoValue)
}

/// The dice of the seed that was given; NoValue without one.
pub fn dice_of(options: &ArgMatches<'_>) -> Result<Dice, Failure> {
    Ok(Dice {
        seed: long_number_of(options, SEED)?,
    })
}
