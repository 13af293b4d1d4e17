// Why the program does not do what it is asked to do. The words and paths are those of the arguments.
use crate::args::Unsound;
use crate::command::{Command, Flag};
use crate::numeral::NumeralError;
use crate::quantity::Quantity;
use file::FileRefusal;
use session::Refusal;
use std::alloc::{AllocError, AllocFailed};
use std::io;

// What is wrong with the arguments.
#[derive(Clone, Copy)]
pub enum Usage<'a> {
    Nothing,
    Unsound(Unsound),
    NoCommand(&'a [u8]),
    Missing(Command),
    TooMany(&'a [u8]),
    NoOption(Command, &'a [u8]),
    NoValue(Flag),
    Twice(Flag),
    TwoPlaces(&'a [u8]),
    Numeral(Quantity, NumeralError, &'a [u8]),
}

#[derive(Drop)]
pub enum Failure<'a> {
    // A host call is refused, and so is a session's file.
    Refused(Refusal),
    RefusedFile(&'a [u8], FileRefusal),
    Usage(Usage<'a>),
    // A file cannot be read.
    Unread(&'a [u8], io::Error),
    // A file, of this name and what is behind it, cannot be written, and none was changed.
    Unwritten {
        path: &'a [u8],
        behind: &'static str,
        error: io::Error,
    },
    NotPlain(&'a [u8]),
    // The first of two files was replaced, and the second cannot be.
    Half {
        first: &'a [u8],
        second: &'a [u8],
        error: io::Error,
    },
    Output(io::Error),
    Memory,
}

impl<'a> From<Usage<'a>> for Failure<'a> {
    fn from(usage: Usage<'a>) -> Failure<'a> {
        Failure::Usage(usage)
    }
}

impl<'a> From<Refusal> for Failure<'a> {
    fn from(refusal: Refusal) -> Failure<'a> {
        Failure::Refused(refusal)
    }
}

// A failure of the system's that names no file is one of standard output.
impl<'a> From<io::Error> for Failure<'a> {
    fn from(error: io::Error) -> Failure<'a> {
        Failure::Output(error)
    }
}

impl<'a> From<AllocError> for Failure<'a> {
    fn from(_error: AllocError) -> Failure<'a> {
        Failure::Memory
    }
}

impl<'a, T: Drop> From<AllocFailed<T>> for Failure<'a> {
    fn from(_error: AllocFailed<T>) -> Failure<'a> {
        Failure::Memory
    }
}
