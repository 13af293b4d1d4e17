// What the program asks of the system: memory, arguments, files, standard output, and standard error for bytes that need not be text.
use std::env::Env;
use std::fs::{File, Files, OpenOptions};
use std::io::{ErrorKind, Stderr, Write};
use std::{fs, io, str};

pub trait System: Env + Files + Print + AllocGlobal {
    type Errors: Write + Drop;

    // Standard error.
    fn errors(&self) -> Self::Errors;
}

impl System for HostRuntime {
    type Errors = Stderr;

    fn errors(&self) -> Stderr {
        self.stderr()
    }
}

// The library opens only a path that is text in UTF-8.
fn text_of(path: &[u8]) -> io::Result<&str> {
    str::from_utf8(path).map_err(|_| io::Error::from(ErrorKind::InvalidFilename))
}

pub fn open_read<R: System>(rt: &R, path: &[u8]) -> io::Result<R::File> {
    File::open(rt, text_of(path)?)
}

// For reading and writing; its bytes stay as they are.
pub fn open_update<R: System>(rt: &R, path: &[u8]) -> io::Result<R::File> {
    let text = text_of(path)?;
    OpenOptions::new().read(true).write(true).open(rt, text)
}

// A file that must not be there yet.
pub fn create<R: System>(rt: &R, path: &[u8]) -> io::Result<R::File> {
    let text = text_of(path)?;
    OpenOptions::new()
        .write(true)
        .create_new(true)
        .open(rt, text)
}

pub fn rename(rt: &impl System, from: &[u8], to: &[u8]) -> io::Result<()> {
    fs::rename(rt, text_of(from)?, text_of(to)?)
}

pub fn remove(rt: &impl System, path: &[u8]) -> io::Result<()> {
    fs::remove_file(rt, text_of(path)?)
}
