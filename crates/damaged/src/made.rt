// What a case makes, from document 01's layout alone: a file, the session of a file, and a buffer's bytes before and after a write.
ghost use Rattle.std.specs.Prelude.{◌<◌};

use crate::given;
use place::GuestAddr;
use session::{Note, Session};
use std::{array, fmt};

// Each byte that is put in after the first one.
const FILLER: u8 = 238;

// One case of a line: its form and its numbers.
#[derive(Clone, Copy)]
pub struct Damage {
    pub note: bool,
    pub place: usize,
    pub count: usize,
    pub value: usize,
    pub rest: usize,
}

impl fmt::Display for Damage {
    fn fmt<W: fmt::Write>(&self, f: &mut fmt::Formatter<W>) -> fmt::Result {
        let Damage {
            place,
            count,
            value,
            ..
        } = *self;
        write!(f, "place {place}, count {count}, value {value}")
    }
}

impl Damage {
    // Byte i of the case's file.
    pub fn file_byte(&self, i: usize) -> u8 {
        match i.checked_sub(self.place) {
            None => whole_byte(self.note, i),
            Some(put) if put >= self.count => {
                whole_byte(self.note, self.rest.wrapping_add(put - self.count))
            }
            Some(0) => (self.value % 256) as u8,
            Some(_) => FILLER,
        }
    }

    // The length of the case's file. It wraps for no line that is well made.
    pub fn length(&self) -> usize {
        let end = self
            .place
            .wrapping_add(self.count)
            .wrapping_add(whole(self.note));
        end.wrapping_sub(self.rest)
    }

    // The session of a write, whose file is the whole one, with the case's count in the byte of register 0 that its value names.
    pub fn session(&self) -> Session {
        let mut zero = [0u8; 8];
        zero[self.value % 8] = (self.count % 256) as u8;
        let mut file = [0u8; given::ROOM];
        report::fill_with(&mut file, |i| whole_byte(self.note, i));
        session(&file, u64::from_le_bytes(zero))
    }
}

// The length of an undamaged file.
pub fn whole(note: bool) -> usize
    ensures { result < 1000 }
{
    if note { 285 } else { 268 }
}

// Byte i of a whole file: the kinds, and a pattern in the bodies. No plain one reaches 284.
fn whole_byte(note: bool, i: usize) -> u8 {
    match i {
        0 => 1,
        9 => 2,
        258 => 3,
        267 => if note { 4 } else { 5 },
        284 => 5,
        _ => report::pattern(i),
    }
}

// The number that eight bytes stand for, the low one first. Past the file's end there are zeros.
fn word(file: &[u8], at: usize) -> u64 {
    u64::from_le_bytes(array::from_fn(|i| text::byte(file, at.wrapping_add(i))))
}

fn registers(file: &[u8], zero: u64) -> [u64; 32] {
    let mut registers = [zero; 32];
    for (register, at) in registers[1..].iter_mut().zip((10usize..258).step_by(8)) {
        *register = word(file, at);
    }
    registers
}

// The session of a good file, but for register 0, which no file has.
pub fn session(file: &[u8], zero: u64) -> Session {
    let has_note = text::byte(file, 267) == 4;
    let note = Note {
        low: word(file, 268),
        high: word(file, 276),
    };
    Session {
        regs: registers(file, zero),
        pc: GuestAddr(word(file, 1)),
        total: word(file, 259),
        note: has_note.then_some(note),
    }
}

// The session of a refused read.
pub fn nothing() -> Session {
    Session {
        regs: [0; 32],
        pc: GuestAddr(0),
        total: 0,
        note: None,
    }
}

// Byte i of a buffer before a write. It is not the byte that a whole file has there.
pub fn buffer_byte(i: usize) -> u8 {
    report::pattern(i % 251 + 1)
}

// Byte i of a buffer after a write of a length, which is 0 for one that is refused.
pub fn written_byte(note: bool, len: usize, i: usize) -> u8 {
    if i < len {
        whole_byte(note, i)
    } else {
        buffer_byte(i)
    }
}
