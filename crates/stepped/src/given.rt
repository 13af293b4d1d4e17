// What a line gives: the machine before the step and the one after it.
ghost use Rattle.std.specs.Prelude.{◌≤◌};

use report::part::Part;

// The length of a line, with its newline.
pub const LINE: usize = 209;

// The window's place in the arena, an odd one, and how many bytes the arena has after the window.
pub const START: usize = 37;

pub const AFTER: usize = 29;

// The most code, and the largest window.
pub const CODE: usize = 65536;

const WINDOW: usize = 65536;

#[derive(Clone, Copy)]
pub struct Given<'a> {
    pub code_length: usize,
    pub window_length: usize,
    pub word: u32,
    pub pc: u64,
    // The arena, and the registers, before the step and after it.
    pub arena: Part<'a>,
    pub arena_after: Part<'a>,
    pub registers: [u64; 32],
    pub registers_after: [u64; 32],
    ghost code_fits: { code_length ≤ 65536 },
    ghost window_fits: { window_length ≤ 65536 },
}

impl<'a> Given<'a> {
    // Nothing where the line is none: its letter is not known, it does not end where it should, it needs more code or a larger
    // window than there is, or it gives more than eight bytes or any outside the window.
    pub fn of(line: &'a [u8]) -> Option<Self> {
        let known = matches!(text::byte(line, 0), b'Q' | b'H');
        let code_length = text::number(line, 44, 5) as usize;
        let window_length = text::number(line, 101, 5) as usize;
        let offset = text::number(line, 107, 5) as usize;
        let n = text::number(line, 113, 1) as usize;
        let is_line = known && text::byte(line, 208) == b'\n' && n <= 8;
        let fits = code_length <= CODE && window_length <= WINDOW && offset + n <= window_length;
        if !is_line || !fits {
            return None;
        }
        let from = START + offset;
        let word = text::half(line, 18);
        let registers = registers(line, word);
        Some(Given {
            code_length,
            window_length,
            word,
            pc: text::number(line, 27, 16),
            arena: Part {
                from,
                digits: text::part(line, 115, 2 * n),
            },
            arena_after: Part {
                from,
                digits: text::part(line, 192, 2 * n),
            },
            registers,
            registers_after: registers_after(line, registers),
        })
    }

    // Puts a word at the line's pc, where the code reaches so far: also where pc is not a multiple of 4, so that a step that forgets
    // to test it does something.
    pub fn put_word(&self, code: &mut [u8], word: u32) {
        let at = self.pc.wrapping_sub(0x1_0000) as usize;
        let place = code.get_mut(at..).and_then(|rest| rest.first_chunk_mut());
        if let Some(bytes) = place {
            *bytes = word.to_le_bytes();
        }
    }
}

// Register i has its number in each of its bytes, but for the three that the word's fields name: the line has their values.
fn registers(line: &[u8], word: u32) -> [u64; 32] {
    let mut registers = [0u64; 32];
    for (register, i) in registers.iter_mut().zip(0u8..) {
        *register = u64::from_le_bytes([i; 8]);
    }
    registers[(word % 32) as usize] = text::number(line, 50, 16);
    registers[(word / 32 % 32) as usize] = text::number(line, 67, 16);
    registers[(word / 1024 % 32) as usize] = text::number(line, 84, 16);
    registers
}

// As before, but for the register that changed. A line where none did says that register 0 is 0.
fn registers_after(line: &[u8], before: [u64; 32]) -> [u64; 32] {
    let mut registers = before;
    let changed = text::pair(line, 172) % 32;
    registers[changed as usize] = text::number(line, 175, 16);
    registers
}
