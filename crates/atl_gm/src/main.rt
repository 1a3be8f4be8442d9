//! The moderator's program: reads the command line and runs its subcommand. See docs/FORMATS.md,
//! "The program".
#![tactic(auto)]

mod books;
mod close;
mod database;
mod failure;
mod files;
mod found;
mod join;
mod mail;
mod options;
mod printing;
mod report;
mod serve;
mod stack;
mod subcommand;
mod trial;
mod upgrade;

use crate::failure::{Failure, OneLine};
use crate::subcommand::Subcommands;
use clap::error::ErrorKind;
use clap::{ArgMatches, Command, Error};
use std::alloc::{AllocError, Global};
use std::env::Env;
use std::process::ExitCode;
use std::{env, io};

/// The list of all subcommands as nested pairs, in the order in which the help lists them.
type All = (
    trial::Trial,
    (
        found::Found,
        (
            join::Join,
            (
                mail::Mail,
                (
                    close::Close,
                    (
                        report::Report,
                        (books::ShowBooks, (serve::Serve, (upgrade::Upgrade, ()))),
                    ),
                ),
            ),
        ),
    ),
);

fn command_line<'a>(alloc: Global) -> Result<Command<'a>, AllocError> {
    let mut parsers = Vec::new(alloc);
    All::add_to(alloc, &mut parsers)?;
    Command::new(alloc, "atl_gm")
        .about("Moderates a campaign of Atlantis 1.0, the peaceful profile")
        .subcommand_required(true)
        .subcommands(parsers)
}

fn dispatch(rt: &HostRuntime, matches: &ArgMatches<'_>) -> Result<(), Failure> {
    match matches.subcommand() {
        Some((name, options)) => All::run(rt, name, options),
        None => Err(Failure::NoSubcommand),
    }
}

fn refused_line(error: Error) -> Failure {
    if error.kind() == ErrorKind::OutOfMemory {
        return Failure::Memory;
    }
    Failure::CommandLine(error)
}

/// The parser's text has line ends of its own, so it is asked for again, for the words with their
/// control characters escaped.
fn refused_words(alloc: Global, words: &[String], error: Error) -> Result<Failure, AllocError> {
    let escaped = escaped_words(alloc, words)?;
    match command_line(alloc)?.try_get_matches_from(escaped.as_slice()) {
        Ok(_) => Ok(refused_line(error)),
        Err(error) => Ok(refused_line(error)),
    }
}

fn escaped_words(alloc: Global, words: &[String]) -> Result<Vec<String>, AllocError> {
    let mut escaped = Vec::new(alloc);
    for word in words {
        let word = OneLine(word.as_str());
        escaped.push(format!(in alloc; "{word}")?)?;
    }
    Ok(escaped)
}

/// The most bytes of a word of the command line, by the system's limit.
const WORD_BYTES: usize = 131_072;

/// False also where there is no word.
fn is_text(rt: &HostRuntime, place: usize) -> Result<bool, AllocError> {
    let mut word = vec![in rt.alloc(); 0; WORD_BYTES]?;
    match rt.arg(place, word.as_mut_slice()) {
        Ok(length) => {
            word.truncate(length);
            Ok(String::from_utf8(word).is_ok())
        }
        Err(_) => Ok(false),
    }
}

/// The program's name is at place 0.
fn place_of_no_text(rt: &HostRuntime) -> Result<usize, AllocError> {
    for place in 0..usize::MAX {
        if !is_text(rt, place)? {
            return Ok(place);
        }
    }
    Ok(usize::MAX)
}

fn no_text(rt: &HostRuntime, command: &mut Command<'_>) -> Result<Failure, AllocError> {
    let place = place_of_no_text(rt)?;
    let message = format!(in rt.alloc(); "word {place} is not UTF-8")?;
    let error = command.error(ErrorKind::InvalidValue, message.as_str())?;
    Ok(refused_line(error))
}

fn words(rt: &HostRuntime, command: &mut Command<'_>) -> Result<Vec<String>, Failure> {
    match env::args(rt) {
        Ok(args) => Ok(args.collect(rt.alloc())?),
        Err(error) if error.kind() == io::ErrorKind::OutOfMemory => Err(Failure::Memory),
        Err(_) => Err(no_text(rt, command)?),
    }
}

fn run(rt: &HostRuntime) -> Result<(), Failure> {
    if !stack::has_room(rt.alloc()) {
        return Err(Failure::Memory);
    }
    let mut command = command_line(rt.alloc())?;
    let words = words(rt, &mut command)?;
    match command.try_get_matches_from(words.as_slice()) {
        Ok(matches) => dispatch(rt, &matches),
        Err(error) => Err(refused_words(rt.alloc(), words.as_slice(), error)?),
    }
}

fn main(rt: HostRuntime) -> ExitCode {
    match run(&rt) {
        Ok(()) => ExitCode::SUCCESS,
        Err(failure) => failure.report(&rt),
    }
}
