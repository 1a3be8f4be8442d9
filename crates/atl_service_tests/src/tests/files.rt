//! Database files that are held in memory.
use sqlite::{Connection, FileStore, Options};
use sqlite_disk::{Disk, Files, Memory};
use std::alloc::Global;
use std::test::Fail;

pub(crate) fn new_files(alloc: Global) -> Files<Memory> {
    Files {
        log: Memory::new(alloc),
        db: Memory::new(alloc),
    }
}

pub(crate) fn connected<D: Disk + Drop>(
    alloc: Global,
    files: Files<D>,
) -> Result<Connection<FileStore<D>>, Fail> {
    if !files.may_be_used() {
        return Err(Fail::new("the files can't be used"));
    }
    match Connection::open_files(alloc, files, Options::new(1)) {
        Ok(conn) => Ok(conn),
        Err(_) => Err(Fail::new("the files can't be opened")),
    }
}
