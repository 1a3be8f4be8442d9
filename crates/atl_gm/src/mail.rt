//! The subcommand `mail`: stores a faction's orders for the month to come.
use crate::failure::Failure;
use crate::files::first_bytes_at;
use crate::options;
use crate::printing::print_answer_of;
use crate::subcommand::Subcommand;
use atl_orders::MOST_BYTES;
use atl_world::Sequence;
use clap::{Arg, ArgMatches};
use std::alloc::{AllocError, Global};

/// The most bytes of a file that are read: one more than a mailing may have, so that a longer one
/// is refused as TooLong.
const READ_BYTES: u64 = MOST_BYTES as u64 + 1;

fn mail_command(
    rt: &HostRuntime,
    options: &ArgMatches<'_>,
) -> Result<atl_service::Command, Failure> {
    let faction = options::number_of(options, options::FACTION)?;
    let pass = options::text_of(options, options::PASS)?;
    let path = options::text_of(options, options::FILE)?;
    let text = first_bytes_at(rt, path, READ_BYTES)?;
    Ok(atl_service::Command::Mail {
        faction,
        pass: Sequence::from_slice(rt.alloc(), pass.as_bytes())?,
        text: Sequence::from_vec(text),
    })
}

/// The subcommand `mail`, which stores the mailing of a file and prints its orders' count and its
/// faulty lines.
pub struct Mail;

impl Subcommand for Mail {
    const NAME: &'static str = "mail";

    const ABOUT: &'static str = "Keeps a faction's orders, in place of those that it sent before";

    fn options<'a>(alloc: Global) -> Result<Vec<Arg<'a>>, AllocError> {
        Ok(vec![in alloc;
            options::db(alloc),
            options::faction(alloc),
            options::faction_pass(alloc),
            options::file(alloc, options::FILE, "The file of the mailing"),
        ]?)
    }

    fn run(rt: &HostRuntime, options: &ArgMatches<'_>) -> Result<(), Failure> {
        let mail = mail_command(rt, options)?;
        print_answer_of(rt, options, &mail)
    }
}
