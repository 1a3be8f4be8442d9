//! The subcommand `serve`: serves the campaign of a file over HTTP, to this machine alone.
use crate::database::{Opening, Work, work_on};
use crate::failure::Failure;
use crate::options;
use crate::subcommand::Subcommand;
use atl_http::Dice;
use atl_http::listening::{ListenFault, serve_each};
use atl_service::Service;
use clap::{Arg, ArgMatches};
use sqlite::Alter;
use std::alloc::{AllocError, Global};
use std::io;
use std::net::{Ipv4Addr, TcpListener};

/// The work of `serve`: serves `count` connections to a port of this machine, with the dice of a
/// seed.
#[derive(Clone, Copy)]
struct Serving<'a> {
    rt: &'a HostRuntime,
    port: u16,
    count: u32,
    dice: Dice,
}

fn bind_failure(error: io::Error) -> Failure {
    Failure::of_system(error, Failure::Net)
}

fn print_port(rt: &HostRuntime, listener: &TcpListener) -> Result<(), Failure> {
    match listener.local_addr() {
        Ok(address) => {
            let port = address.port();
            let _ = eprintln!(rt; "port: {port}");
            Ok(())
        }
        Err(_) => Err(Failure::Net),
    }
}

/// Listens on the port at 127.0.0.1, and serves `count` connections. Net if the port can't be bound
/// or no connection accepted, Memory if memory ran out.
impl<'a> Work for Serving<'a> {
    type Done = ();

    // Many commands come.
    const LASTS: bool = true;

    fn run<S: Alter>(&self, service: &mut Service<S>) -> Result<(), Failure> {
        let address = (Ipv4Addr::LOCALHOST, self.port);
        let listener = TcpListener::bind(self.rt, address).map_err(bind_failure)?;
        if self.port == 0 && self.count != 0 {
            print_port(self.rt, &listener)?;
        }
        match serve_each(
            self.rt.alloc(),
            self.rt,
            &listener,
            service,
            self.count,
            self.dice,
        ) {
            Ok(()) => Ok(()),
            Err(ListenFault::Net) => Err(Failure::Net),
            Err(ListenFault::Memory) => Err(Failure::Memory),
        }
    }
}

/// The subcommand `serve`, which serves a count of connections and prints nothing but the port that
/// the system chose.
pub struct Serve;

impl Subcommand for Serve {
    const NAME: &'static str = "serve";

    const ABOUT: &'static str =
        "Serves the campaign over HTTP to this machine, for so many connections";

    fn options<'a>(alloc: Global) -> Result<Vec<Arg<'a>>, AllocError> {
        Ok(vec![in alloc;
            options::db(alloc),
            options::port(alloc, options::PORT, "The port at 127.0.0.1 that is served"),
            options::number(
                alloc,
                options::COUNT,
                "How many connections are served before it ends"
            ),
            options::seed(alloc),
        ]?)
    }

    fn run(rt: &HostRuntime, options: &ArgMatches<'_>) -> Result<(), Failure> {
        let path = options::text_of(options, options::DB)?;
        let serving = Serving {
            rt,
            port: options::port_of(options, options::PORT)?,
            count: options::number_of(options, options::COUNT)?,
            dice: options::dice_of(options)?,
        };
        work_on(rt, path, Opening::Kept, &serving)
    }
}
