// What a line gives: the session and the code before the run, and the session and the bytes after it.
ghost use Rattle.std.specs.Prelude.{◌<◌, ◌≤◌};

use place::GuestAddr;
use report::part::Part;
use session::Session;

// The length of a line, with its newline.
pub const LINE: usize = 2155;

// The window's place in the arena, an odd one, and how many bytes the arena has after the window.
pub const START: usize = 37;

pub const AFTER: usize = 29;

// The most code.
pub const CODE: usize = 65536;

// The most words and bytes that a line gives.
const WORDS: usize = 64;

const BYTES: usize = 256;

// The word that stands wherever the line gives none: a BREAK.
const PAD: u32 = 0x002a_7abc;

// What may stand in a column: the letter, blanks between the fields, the name of the kind, the newline, and else digits.
fn fits(column: usize, b: u8) -> bool {
    match column {
        0 => matches!(b, b'Q' | b'H'),
        1 | 4 | 17 | 23 | 29 | 32 | 545 | 562 | 579 | 585 | 1082 => b == b' ',
        1088 | 1094 | 1098 | 1101 | 1104 | 1121 | 1127 | 1144 | 1641 => b == b' ',
        5..=16 => text::is_printable(b),
        2154 => b == b'\n',
        _ => text::is_digit(b),
    }
}

// Words of the code: where they begin, and their digits in the line, eight for each.
#[derive(Clone, Copy)]
struct Words<'a> {
    from: usize,
    digits: &'a [u8],
}

impl Words<'_> {
    // Puts a word in the place of each, which is told by its digits.
    fn put<F: Fn(&[u8]) -> u32>(&self, code: &mut [u8], word: F)
        requires { F.IsAlwaysCallable word }
    {
        let places = code.get_mut(self.from..).unwrap_or(&mut []);
        let words = self.digits.chunks_exact(8);
        for (place, digits) in places.chunks_exact_mut(4).zip(words) {
            place.copy_from_slice(&word(digits).to_le_bytes());
        }
    }
}

#[derive(Clone, Copy)]
pub struct Given<'a> {
    pub code_length: usize,
    pub window_length: usize,
    words: Words<'a>,
    pub session: Session,
    pub budget: u64,
    pub steps: u64,
    pub total_after: u64,
    pub registers_after: [u64; 32],
    pub arena_after: Part<'a>,
    ghost code_fits: { code_length ≤ 65536 },
    ghost five_digits: { window_length < 1048576 },
}

impl<'a> Given<'a> {
    // Nothing where the line is none: a column has what does not belong there, the line needs more code than there is, or words lie
    // outside the code or bytes outside the window. A window that is larger than the arena is found when the arena is lent.
    pub fn of(line: &'a [u8]) -> Option<Self> {
        let code_length = text::number(line, 18, 5) as usize;
        let words_at = text::number(line, 24, 5) as usize;
        let words = text::number(line, 30, 2) as usize;
        let window_length = text::number(line, 1083, 5) as usize;
        let bytes_at = text::number(line, 1089, 5) as usize;
        let bytes = text::number(line, 1095, 3) as usize;
        let code = words <= WORDS && words_at + 4 * words <= code_length && code_length <= CODE;
        let window = bytes <= BYTES && bytes_at + bytes <= window_length;
        if !code || !window || !text::has_columns(line, fits) {
            return None;
        }
        let session = session(line);
        let steps = text::number(line, 1122, 5);
        Some(Given {
            code_length,
            window_length,
            words: Words {
                from: words_at,
                digits: text::part(line, 33, 8 * words),
            },
            session,
            budget: text::number(line, 580, 5),
            steps,
            total_after: session.total.wrapping_add(steps),
            registers_after: registers(line, 1145),
            arena_after: Part {
                from: START + bytes_at,
                digits: text::part(line, 1642, 2 * bytes),
            },
        })
    }

    // Puts the line's words in their place.
    pub fn put_words(&self, code: &mut [u8]) {
        self.words.put(code, |digits| text::half(digits, 0));
    }

    // Puts there what stands there otherwise.
    pub fn take_words(&self, code: &mut [u8]) {
        self.words.put(code, |_| PAD);
    }
}

// The code of a line that gives no words.
pub fn fill_code(code: &mut [u8]) {
    for place in code.chunks_exact_mut(4) {
        place.copy_from_slice(&PAD.to_le_bytes());
    }
}

// Register 0 is zero, and the others stand one after another from a column on.
fn registers(line: &[u8], column: usize) -> [u64; 32] {
    let mut registers = [0u64; 32];
    let given = text::part(line, column, 31 * 16).chunks_exact(16);
    for (register, digits) in registers[1..].iter_mut().zip(given) {
        *register = text::number(digits, 0, 16);
    }
    registers
}

fn session(line: &[u8]) -> Session {
    Session {
        regs: registers(line, 586),
        pc: GuestAddr(text::number(line, 546, 16)),
        total: text::number(line, 563, 16),
        note: None,
    }
}
