// The program's arguments, each read once.
use crate::failure::Usage;
use crate::system::System;
use std::alloc::AllocError;
use std::env::FillError;

// The longest argument: with .new behind it, it is still a path that can be opened.
pub const LONGEST: usize = 4091;

// So many arguments are read: the program's name, a command, its words, its options with their values, and one that is too many. Whatever
// is wrong with a call shows by then, and however many there are, no more memory is asked for.
const MOST: usize = 12;

// Why an argument cannot be used, and its place.
#[derive(Clone, Copy)]
pub enum Unsound {
    Empty(usize),
    TooLong(usize),
}

pub type Argument = Result<Vec<u8>, Unsound>;

// The arguments; the first is the program's name.
pub fn read(rt: &impl System) -> Result<Vec<Argument>, AllocError> {
    let mut buffer = [0u8; LONGEST];
    let mut all = Vec::new(rt.alloc());
    for place in 0..MOST {
        let argument = match rt.arg(place, &mut buffer) {
            Ok(0) => Err(Unsound::Empty(place)),
            Ok(n) => Ok(Vec::from_slice(rt.alloc(), &buffer[..n])?),
            Err(FillError::TooLong) => Err(Unsound::TooLong(place)),
            Err(FillError::NotPresent) => break,
        };
        all.push(argument)?;
    }
    Ok(all)
}

// The word that an argument is.
pub fn word_of(argument: &Argument) -> Result<&[u8], Usage<'_>> {
    match argument {
        Ok(word) => Ok(word.as_slice()),
        Err(unsound) => Err(Usage::Unsound(*unsound)),
    }
}

// A file may not be given in two places.
pub fn expect_apart<'a>(file: &'a [u8], others: &[Option<&[u8]>]) -> Result<(), Usage<'a>> {
    if others.iter().flatten().any(|other| *other == file) {
        Err(Usage::TwoPlaces(file))
    } else {
        Ok(())
    }
}
