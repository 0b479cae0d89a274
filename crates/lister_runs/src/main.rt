// The lister on stored inputs: each file that an argument names, with its name before its listing.
#![tactic(auto)]

use std::env::{Env, FillError};
use std::fs::File;
use std::io;
use std::io::{Cursor, Error, ErrorKind, Write};

// Opens a file to be read. A name that is no text names none.
fn open(rt: &HostRuntime, name: &[u8]) -> io::Result<File> {
    match std::str::from_utf8(name) {
        Ok(path) => File::open(rt, path),
        Err(_) => Err(Error::from(ErrorKind::InvalidFilename)),
    }
}

// The words of what an error says, before its number.
fn words(said: &[u8]) -> &[u8] {
    let number = b" (os error ".as_slice();
    match said.windows(number.len()).position(|s| s == number) {
        Some(end) => &said[..end],
        None => said,
    }
}

// Tells of a file that was not opened: its name, and why, in the system's words.
fn fail(rt: &HostRuntime, name: &[u8], error: Error) -> io::Result<()> {
    let mut text = [0u8; 256];
    let mut room = Cursor::new(&mut text[..]);
    write!(room, "{error}")?;
    let n = (room.position() as usize).min(256);
    let mut output = rt.stderr();
    output.write_all(name)?;
    output.write_all(b": ")?;
    output.write_all(words(&text[..n]))?;
    output.write_all(b"\n")
}

// The listing of one file.
fn list_named(rt: &HostRuntime, name: &[u8]) -> io::Result<()> {
    let mut output = rt.stdout();
    output.write_all(b"-- ")?;
    output.write_all(name)?;
    output.write_all(b"\n")?;
    match open(rt, name) {
        Ok(mut file) => listing::list_file(&mut file, &mut output),
        Err(error) => fail(rt, name, error),
    }
}

// The file that argument i names, if there is such an argument.
fn list_argument(rt: &HostRuntime, i: usize) -> io::Result<bool> {
    let mut name = [0u8; 4096];
    match rt.arg(i, &mut name) {
        Ok(n) => list_named(rt, &name[..n])?,
        Err(FillError::TooLong) => list_named(rt, b"")?,
        Err(FillError::NotPresent) => return Ok(false),
    }
    Ok(true)
}

fn main(rt: HostRuntime) -> io::Result<()> {
    for i in 1..usize::MAX {
        if !list_argument(&rt, i)? {
            break;
        }
    }
    Ok(())
}
