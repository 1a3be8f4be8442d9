//! The subcommand `close`: closes a month of a campaign's file.
use crate::database::Work;
use crate::failure::Failure;
use crate::options;
use crate::printing::print_answer_of;
use crate::subcommand::Subcommand;
use atl_http::{Dice, Request, run_request};
use atl_service::{Answer, Service};
use atl_world::Sequence;
use clap::{Arg, ArgMatches};
use sqlite::Alter;
use std::alloc::{AllocError, Global};

/// The work of `close`: closes the month `month`, with the moderator's pass text and the words of
/// the dice.
#[derive(Clone, Copy)]
struct Closing<'a> {
    alloc: Global,
    month: u32,
    pass: &'a str,
    dice: Dice,
}

impl<'a> Work for Closing<'a> {
    type Done = Answer;

    fn run<S: Alter>(&self, service: &mut Service<S>) -> Result<Answer, Failure> {
        let month = self.month;
        let pass = Sequence::from_slice(self.alloc, self.pass.as_bytes())?;
        let request = Request::Close { month, pass };
        Ok(run_request(self.alloc, service, self.dice, request)?)
    }
}

/// The subcommand `close`, which closes a month and prints its number.
pub struct Close;

impl Subcommand for Close {
    const NAME: &'static str = "close";

    const ABOUT: &'static str =
        "Closes a month, with the words that the dice of a seed give for it";

    fn options<'a>(alloc: Global) -> Result<Vec<Arg<'a>>, AllocError> {
        Ok(vec![in alloc;
            options::db(alloc),
            options::number(
                alloc,
                options::MONTH,
                "The month to close, one above the last that was closed"
            ),
            options::text(alloc, options::PASS, "The moderator's pass text"),
            options::seed(alloc),
        ]?)
    }

    fn run(rt: &HostRuntime, options: &ArgMatches<'_>) -> Result<(), Failure> {
        let closing = Closing {
            alloc: rt.alloc(),
            month: options::number_of(options, options::MONTH)?,
            pass: options::text_of(options, options::PASS)?,
            dice: options::dice_of(options)?,
        };
        print_answer_of(rt, options, &closing)
    }
}
