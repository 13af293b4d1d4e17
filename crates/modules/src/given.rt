// What a line gives: which module, and the machine after the run.
use std::io;

// The length of a line, with its newline.
pub const LINE: usize = 628;

// The most code, and the largest window.
pub const CODE: usize = 65536;

pub const WINDOW: usize = 65536;

// The longest name of a module, and where it stands.
const NAME: usize = 8;

const NAME_AT: usize = 2;

#[derive(Clone, Copy)]
pub struct Given<'a> {
    // Whether a module begins here. Else the host answers.
    pub begins: bool,
    pub name: &'a [u8],
    // The kind of the file that has the window after the run.
    pub kind_after: &'a [u8],
    pub code_length: usize,
    pub window_length: usize,
    pub answer: u64,
    pub steps: u64,
    pub total: u64,
    pub registers: [u64; 32],
}

impl<'a> Given<'a> {
    // Nothing where the line is none: its letter is not known, or it does not end where it should.
    pub fn of(line: &'a [u8]) -> Option<Self> {
        let letter = text::byte(line, 0);
        if !matches!(letter, b'm' | b'a') || text::byte(line, 627) != b'\n' {
            return None;
        }
        Some(Given {
            begins: letter == b'm',
            name: name(line),
            kind_after: text::part(line, 11, 5),
            code_length: text::number(line, 17, 5) as usize,
            window_length: text::number(line, 23, 5) as usize,
            answer: text::number(line, 29, 16),
            steps: text::number(line, 86, 5),
            total: text::number(line, 92, 8),
            registers: registers(line),
        })
    }

    // As `zones: 2173 steps to service call 0, agree`.
    pub fn print_result(
        &self,
        rt: &impl Print,
        steps: u64,
        call: u64,
        differs: bool,
    ) -> io::Result<()> {
        let verdict = if differs { "differs" } else { "agree" };
        rt.write_all(self.name)?;
        println!(rt; ": {steps} steps to service call {call}, {verdict}")
    }
}

// Blanks stand behind a name.
fn name(line: &[u8]) -> &[u8] {
    let field = text::part(line, NAME_AT, NAME);
    let length = field.iter().position(|b| *b == b' ');
    text::part(field, 0, length.unwrap_or(NAME))
}

// Register 0 is zero, and each of the others stands 17 columns behind the one before.
fn registers(line: &[u8]) -> [u64; 32] {
    let mut registers = [0u64; 32];
    for (register, at) in registers[1..].iter_mut().zip((101usize..628).step_by(17)) {
        *register = text::number(line, at, 16);
    }
    registers
}
