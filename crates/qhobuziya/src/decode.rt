// A word as an instruction.
use crate::failure::Failure;
use crate::quantity::Quantity;
use crate::system::System;
use std::fmt;

// A word that is shown with its instruction.
#[derive(Clone, Copy)]
pub struct Word(pub u32);

impl fmt::Display for Word {
    fn fmt<W: fmt::Write>(&self, f: &mut fmt::Formatter<W>) -> fmt::Result {
        match decoder::decode(self.0) {
            Some(instruction) => write!(f, "{:08x} {}", self.0, names::Shown(instruction)),
            None => write!(f, "{:08x} no such instruction", self.0),
        }
    }
}

pub fn decode<'a>(rt: &impl System, given: &'a [u8]) -> Result<(), Failure<'a>> {
    let number = Quantity::Word.read(given)?;
    // A word of eight hex digits has no more bits.
    let word = Word((number & 0xffff_ffff) as u32);
    println!(rt; "{word}")?;
    Ok(())
}
