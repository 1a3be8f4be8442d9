//! The subcommand `books`: prints the books of a campaign's file. See docs/FORMATS.md, "Books".
use crate::database::{Opening, Work, work_on};
use crate::failure::Failure;
use crate::options;
use crate::printing::check_printed;
use crate::subcommand::Subcommand;
use atl_service::Service;
use clap::{Arg, ArgMatches};
use sqlite::Alter;
use std::alloc::{AllocError, Global};

/// The work of `books`: makes the text of the campaign's books. A closed service gives Store.
struct MakeBooksText;

impl Work for MakeBooksText {
    type Done = String;

    fn run<S: Alter>(&self, service: &mut Service<S>) -> Result<String, Failure> {
        match service.books() {
            Some(text) => Ok(text?),
            None => Err(Failure::Store),
        }
    }
}

pub struct ShowBooks;

impl Subcommand for ShowBooks {
    const NAME: &'static str = "books";

    const ABOUT: &'static str =
        "Prints the books: of each thing all entries, and how much there is";

    fn options<'a>(alloc: Global) -> Result<Vec<Arg<'a>>, AllocError> {
        Ok(vec![in alloc; options::db(alloc)]?)
    }

    fn run(rt: &HostRuntime, options: &ArgMatches<'_>) -> Result<(), Failure> {
        let path = options::text_of(options, options::DB)?;
        let text = work_on(rt, path, Opening::Kept, &MakeBooksText)?;
        check_printed(rt.print(text.as_str()))
    }
}
