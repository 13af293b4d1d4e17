// What a line gives: the call and what it is made on, and the registers after it.
ghost use Rattle.std.specs.Prelude.{◌≤◌};

use place::{ArenaOffset, GuestAddr, Window};
use session::{Note, Session};

// The length of a line, with its newline.
pub const LINE: usize = 231;

// The longest code that a case lends, a word more than is allowed, and an arena with room beside the largest window.
pub const CODE: usize = 65540;

pub const ARENA: usize = 65600;

// The note of every session.
pub const NOTE: Note = Note {
    low: 0x1122_3344_5566_7788,
    high: 0x99aa_bbcc_ddee_ff01,
};

// What may stand in a column: the call, blanks between the fields, the case's name, the newline, and else digits.
fn fits(column: usize, b: u8) -> bool {
    match column {
        0 => matches!(b, b'r' | b'a'),
        1 | 10 | 16 | 22 | 39 | 56 | 73 | 90 | 107 => b == b' ',
        124 | 126 | 129 | 132 | 149 | 155 | 172 | 189 => b == b' ',
        190..=229 => text::is_printable(b),
        230 => b == b'\n',
        _ => text::is_digit(b),
    }
}

// A line that is no case counts as a run, if it does not begin as an answer.
pub fn is_answer(line: &[u8]) -> bool {
    text::byte(line, 0) == b'a'
}

#[derive(Clone, Copy)]
pub struct Given {
    pub is_answer: bool,
    // The word that fills the code.
    pub word: u32,
    pub code_length: usize,
    pub arena_length: usize,
    pub window: Window,
    pub session: Session,
    // A run's budget, or an answer's value.
    pub number: u64,
    pub registers_after: [u64; 32],
    ghost code_fits: { code_length ≤ 65540 },
    ghost arena_fits: { arena_length ≤ 65600 },
}

impl Given {
    // Nothing where the line is none, or lends more than there is.
    pub fn of(line: &[u8]) -> Option<Given> {
        let code_length = text::number(line, 11, 5) as usize;
        let arena_length = text::number(line, 17, 5) as usize;
        let lends = code_length <= CODE && arena_length <= ARENA;
        if !lends || !text::has_columns(line, fits) {
            return None;
        }
        Some(Given {
            is_answer: is_answer(line),
            word: text::half(line, 2),
            code_length,
            arena_length,
            window: Window {
                start: ArenaOffset(text::number(line, 23, 16) as usize),
                len: text::number(line, 40, 16) as usize,
            },
            session: session(line),
            number: text::number(line, 108, 16),
            registers_after: registers_after(line),
        })
    }
}

// Register i has its number in each of its bytes, but for register 0, which the line has.
fn registers(line: &[u8]) -> [u64; 32] {
    let mut registers = [0u64; 32];
    for (register, i) in registers.iter_mut().zip(0u8..) {
        *register = u64::from_le_bytes([i; 8]);
    }
    registers[0] = text::number(line, 57, 16);
    registers
}

// As before, but for what an accepted answer puts in register 4.
fn registers_after(line: &[u8]) -> [u64; 32] {
    let mut registers = registers(line);
    if is_answer(line) && text::number(line, 125, 1) == 0 {
        registers[4] = text::number(line, 108, 16);
    }
    registers
}

fn session(line: &[u8]) -> Session {
    Session {
        regs: registers(line),
        pc: GuestAddr(text::number(line, 74, 16)),
        total: text::number(line, 91, 16),
        note: Some(NOTE),
    }
}
