//! Reads the text files that the command line names, and standard input.
use crate::failure::Failure;
use std::alloc::Global;
use std::io::Read;
use std::{fs, io};

fn read_failure(error: io::Error) -> Failure {
    Failure::of_system(error, Failure::File)
}

/// The text of the file at the path; File if it can't be read or isn't UTF-8.
pub fn text_at(rt: &HostRuntime, path: &str) -> Result<String, Failure> {
    fs::read_to_string(rt, path).map_err(read_failure)
}

/// The first `most` bytes of the file at the path, or all bytes of a shorter file; File if it can't
/// be read. Nothing after them is read.
pub fn first_bytes_at(rt: &HostRuntime, path: &str, most: u64) -> Result<Vec<u8>, Failure> {
    let file = fs::open(rt, path).map_err(read_failure)?;
    let mut bytes = Vec::new(rt.alloc());
    match file.take(most).read_to_end(&mut bytes) {
        Ok(_) => Ok(bytes),
        Err(error) => Err(read_failure(error)),
    }
}

/// The text on standard input; File if it can't be read or isn't UTF-8.
pub fn text_on_input<R: Input>(rt: &R, alloc: Global) -> Result<String, Failure> {
    io::read_to_string(alloc, rt.reader()).map_err(read_failure)
}
