//! Opens the database file of a campaign, runs a subcommand's work on it, and shuts it.
ghost use Rattle.std.specs.Prelude.{IfOk, IsTrue};
ghost use Rattle.sqlite_std_file.specs.File.{file_is_usable};

use crate::failure::Failure;
use atl_service::{Answer, Command, Refused, Service, found, open, upgrade};
use sqlite::{Alter, Connection, FileFrom, FileStore, Files, Options, Start, Wary};
use sqlite_disk::Disk;
use sqlite_std_file::OpenError;
use std::alloc::Global;
use std::fs;
use std::hash::{BuildHasher, RandomState};
use std::io::ErrorKind;

/// The work of a subcommand on an open campaign, over any store.
pub trait Work {
    type Done: Drop;

    /// Whether the work may run many commands, so that the file may grow by far more than one adds.
    /// Then up to `MOST_PAGES` pages are kept in memory, however small the file is.
    const LASTS: bool = false;

    fn run<S: Alter>(&self, service: &mut Service<S>) -> Result<Self::Done, Failure>;
}

/// The work of running one command on the service; the result is the command's answer.
impl Work for Command {
    type Done = Answer;

    fn run<S: Alter>(&self, service: &mut Service<S>) -> Result<Answer, Failure> {
        Ok(service.run(self))
    }
}

/// How the program gets the campaign of a file: it founds, opens or upgrades it.
#[derive(Clone, Copy)]
pub enum Opening<'a> {
    /// The campaign is founded by a world text, with the moderator's pass text. The file may be
    /// made for it.
    Founded { world: &'a str, pass: &'a str },
    /// The campaign is opened from the file.
    Kept,
    /// The campaign is in the file in the first format, and is upgraded by a new world text.
    Upgraded { world: &'a str },
}

/// The number of bytes in the header of a database. A shorter file is no database.
const HEADER_BYTES: u64 = 100;

fn is_there(rt: &HostRuntime, path: &str) -> Result<bool, Failure> {
    match fs::exists(rt, path) {
        Ok(is_there) => Ok(is_there),
        Err(error) => Err(Failure::of_system(error, Failure::Store)),
    }
}

/// A path without a `/` is in the folder that the program runs in.
fn has_folder(rt: &HostRuntime, path: &str) -> Result<bool, Failure> {
    match path.rsplit_once('/') {
        Some((folder, _)) if !folder.is_empty() => is_there(rt, folder),
        _ => Ok(true),
    }
}

fn missing_file_failure(rt: &HostRuntime, path: &str) -> Failure {
    match has_folder(rt, path) {
        Ok(true) => Failure::NotACampaign,
        Ok(false) => Failure::Store,
        Err(failure) => failure,
    }
}

/// Opening would create a file that is missing, and overwrite one that is too short for a database.
/// A folder is accepted, and then can't be opened.
fn confirm_file(rt: &HostRuntime, path: &str) -> Result<(), Failure> {
    let metadata = match fs::metadata(rt, path) {
        Ok(metadata) => metadata,
        Err(error) if error.kind() == ErrorKind::NotFound => return Err(missing_file_failure(
            rt, path,
        )),
        Err(error) => return Err(Failure::of_system(error, Failure::Store)),
    };
    if !metadata.is_file() || HEADER_BYTES <= metadata.len() {
        return Ok(());
    }
    if metadata.len() == 0 {
        return Err(Failure::NotACampaign);
    }
    Err(Failure::Store)
}

/// How many pages of the database are kept in memory at most.
const MOST_PAGES: u64 = 2_000;

/// The number of bytes of a page, as the program makes a database.
const PAGE_BYTES: u64 = 4_096;

/// How many pages are kept in memory beyond those of the file, since a command adds some.
const SPARE_PAGES: u64 = 64;

/// The memory for the pages is cleared at each start, so more pages would cost time.
fn pages_for(bytes: u64) -> u64 {
    let pages = bytes / PAGE_BYTES;
    if MOST_PAGES <= pages {
        return MOST_PAGES;
    }
    (pages + pages / 4 + SPARE_PAGES).min(MOST_PAGES)
}

fn length_of(rt: &HostRuntime, path: &str) -> Result<u64, Failure> {
    match fs::metadata(rt, path) {
        Ok(metadata) => Ok(metadata.len()),
        Err(error) if error.kind() == ErrorKind::NotFound => Ok(0),
        Err(error) => Err(Failure::of_system(error, Failure::Store)),
    }
}

/// The log needs a number drawn at random.
fn options_for(rt: &HostRuntime, pages: u64) -> Result<Options, Failure> {
    let state = match RandomState::new(rt) {
        Ok(state) => state,
        Err(_) => return Err(Failure::Store),
    };
    let mut options = Options::new(state.hash_one(&0u8));
    options.cache_pages = pages as usize;
    Ok(options)
}

/// Opens the database file at `path` and its log, and makes those that are missing. Both are then
/// usable: they are open, and none of their flushes to the disk has failed. `start` says what is
/// supposed of a crash. A path that SQLite would read in another way is refused with Store.
fn open_files<S: Start>(
    rt: &HostRuntime,
    path: &str,
    start: S,
) -> Result<Files<FileFrom<S>>, Failure>
    ensures usable { IfOk result (λ files. IsTrue (file_is_usable S.Start files.log)
        × IsTrue (file_is_usable S.Start files.db)) }
{
    if path == ":memory:" || path.starts_with("file:") {
        return Err(Failure::Store);
    }
    match sqlite_std_file::open(rt, path, start) {
        Ok(files) => Ok(files),
        Err(OpenError::OutOfMemory) => Err(Failure::Memory),
        Err(OpenError::Io(error)) => Err(Failure::of_system(error, Failure::Store)),
        Err(OpenError::Busy | OpenError::HotJournal) => Err(Failure::Store),
    }
}

fn open_service<S: Alter>(
    alloc: Global,
    conn: Connection<S>,
    opening: Opening<'_>,
) -> Result<Service<S>, Refused<S>> {
    match opening {
        Opening::Founded { world, pass } => found(alloc, conn, world, pass.as_bytes()),
        Opening::Kept => open(alloc, conn),
        Opening::Upgraded { world } => upgrade(alloc, conn, world),
    }
}

/// Returns the connection either way, so that the file can be shut.
fn run_work<S: Alter + Drop, W: Work>(
    alloc: Global,
    conn: Connection<S>,
    opening: Opening<'_>,
    work: &W,
) -> (Result<W::Done, Failure>, Connection<S>) {
    match open_service(alloc, conn, opening) {
        Ok(mut service) => {
            let done = work.run(&mut service);
            (done, service.end())
        }
        Err(Refused { why, conn }) => (Err(Failure::from(why)), conn),
    }
}

/// The log is copied into the database file, so that this file alone holds all changes.
fn shut<D: Disk + Drop>(conn: Connection<FileStore<D>>) -> Result<(), Failure> {
    match conn.close() {
        Ok(()) => Ok(()),
        Err(error) => Err(Failure::from(error)),
    }
}

fn both_results<T: Drop>(
    done: Result<T, Failure>,
    shutting: Result<(), Failure>,
) -> Result<T, Failure> {
    let done = done?;
    shutting?;
    Ok(done)
}

/// A file that is made has no checksums on its pages, since a `sqlite3` without the extension for
/// checksums would spoil them.
fn work_in<D: Disk + Drop, W: Work>(
    alloc: Global,
    files: Files<D>,
    options: Options,
    opening: Opening<'_>,
    work: &W,
) -> Result<W::Done, Failure>
    requires log { IsTrue (D.Disk.is_usable files.log) }
    requires db { IsTrue (D.Disk.is_usable files.db) }
{
    match Connection::open_files_with(alloc, files, options, false) {
        Ok(conn) => {
            let (done, conn) = run_work(alloc, conn, opening, work);
            both_results(done, shut(conn))
        }
        Err((error, _)) => Err(Failure::from(error)),
    }
}

fn work_from<S: Start, W: Work>(
    rt: &HostRuntime,
    path: &str,
    start: S,
    pages: u64,
    opening: Opening<'_>,
    work: &W,
) -> Result<W::Done, Failure> {
    let files = open_files(rt, path, start)?;
    let options = options_for(rt, pages)?;
    work_in(rt.alloc(), files, options, opening, work)
}

fn confirmed_pages<W: Work>(
    rt: &HostRuntime,
    path: &str,
    opening: Opening<'_>,
) -> Result<u64, Failure> {
    match opening {
        Opening::Founded { .. } => Ok(MOST_PAGES),
        Opening::Upgraded { .. } => {
            confirm_file(rt, path)?;
            Ok(MOST_PAGES)
        }
        Opening::Kept => {
            confirm_file(rt, path)?;
            if W::LASTS {
                return Ok(MOST_PAGES);
            }
            Ok(pages_for(length_of(rt, path)?))
        }
    }
}

/// Opens the campaign of the file at the path, does the work on it, and shuts the file. Afterwards
/// the file alone holds the campaign, whatever came of the work. If shutting it fails, the work may
/// have been done, and a log is next to the file. Only `found` opens a file that is missing or too
/// short for a database.
pub fn work_on<W: Work>(
    rt: &HostRuntime,
    path: &str,
    opening: Opening<'_>,
    work: &W,
) -> Result<W::Done, Failure> {
    let pages = confirmed_pages::<W>(rt, path, opening)?;
    work_from(rt, path, Wary, pages, opening, work)
}
