//! The subcommand `join`: a faction joins the campaign of a file.
use crate::database::Work;
use crate::failure::Failure;
use crate::options;
use crate::printing::print_answer_of;
use crate::subcommand::Subcommand;
use atl_http::{Dice, Request, run_request};
use atl_service::{Answer, Service};
use atl_world::Sequence;
use clap::{Arg, ArgMatches};
use sqlite::Alter;
use std::alloc::{AllocError, Global};

/// The work of `join`: a faction of this name and pass text joins in the region that the dice pick.
#[derive(Clone, Copy)]
struct Joining<'a> {
    alloc: Global,
    name: &'a str,
    pass: &'a str,
    dice: Dice,
}

impl<'a> Work for Joining<'a> {
    type Done = Answer;

    fn run<S: Alter>(&self, service: &mut Service<S>) -> Result<Answer, Failure> {
        let request = Request::Join {
            name: Sequence::from_slice(self.alloc, self.name.as_bytes())?,
            pass: Sequence::from_slice(self.alloc, self.pass.as_bytes())?,
        };
        Ok(run_request(self.alloc, service, self.dice, request)?)
    }
}

/// The subcommand `join`, which has a faction join and prints its number and that of its unit.
pub struct Join;

impl Subcommand for Join {
    const NAME: &'static str = "join";

    const ABOUT: &'static str = "Has a faction join, where the dice of a seed say";

    fn options<'a>(alloc: Global) -> Result<Vec<Arg<'a>>, AllocError> {
        Ok(vec![in alloc;
            options::db(alloc),
            options::text(alloc, options::NAME, "The name of the faction"),
            options::text(
                alloc,
                options::PASS,
                "The pass text that the faction will use"
            ),
            options::seed(alloc),
        ]?)
    }

    fn run(rt: &HostRuntime, options: &ArgMatches<'_>) -> Result<(), Failure> {
        let joining = Joining {
            alloc: rt.alloc(),
            name: options::text_of(options, options::NAME)?,
            pass: options::text_of(options, options::PASS)?,
            dice: options::dice_of(options)?,
        };
        print_answer_of(rt, options, &joining)
    }
}
