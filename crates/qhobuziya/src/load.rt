// The files that a command works on.
use crate::failure::Failure;
use crate::system;
use crate::system::System;
use session::Session;
use std::io;
use std::io::Read;

// A word more than code or window may have: enough for the call to see that there is too much.
const MOST: u64 = 65540;

// Longer than any paused session, for the same reason.
const FILE: u64 = 300;

// The start of the file at a path.
fn start_of(rt: &impl System, path: &[u8], most: u64) -> io::Result<Vec<u8>> {
    let mut bytes = Vec::new(rt.alloc());
    system::open_read(rt, path)?
        .take(most)
        .read_to_end(&mut bytes)?;
    Ok(bytes)
}

fn file<'a>(rt: &impl System, path: &'a [u8], most: u64) -> Result<Vec<u8>, Failure<'a>> {
    start_of(rt, path, most).map_err(|error| Failure::Unread(path, error))
}

// The bytes of code or of a window.
pub fn bytes<'a>(rt: &impl System, path: &'a [u8]) -> Result<Vec<u8>, Failure<'a>> {
    file(rt, path, MOST)
}

// The paused session in the file at a path.
pub fn paused<'a>(rt: &impl System, path: &'a [u8]) -> Result<Session, Failure<'a>> {
    let bytes = file(rt, path, FILE)?;
    match reader::read(&bytes) {
        Ok(reading) => Ok(reading.session),
        Err(refused) => Err(Failure::RefusedFile(path, refused)),
    }
}

// The same, or a new one where no file is named.
pub fn begin<'a>(rt: &impl System, path: Option<&'a [u8]>) -> Result<Session, Failure<'a>> {
    match path {
        Some(path) => paused(rt, path),
        None => Ok(Session::start()),
    }
}
