// Runs every value function on a recording of an independent emulator (tools/record-values), and prints for each mnemonic how
// many lines there were and how many of them differ. A line is
//     Q 00 00 add.w        rd rj rk pc field field value
// where Q is what the emulator left in rd, H what document 01 says; the two numbers are a family and an operation of it.
#![tactic(auto)]

mod operations;

ghost use Rattle.std.specs.Prelude.{◌<◌, length};

use report::lines::{Line, Lines};
use report::mnemonics::{Mnemonic, Mnemonics};
use std::io;

// The length of a line, with its newline.
const LINE: usize = 124;

// What one line gives a value function.
#[derive(Clone, Copy)]
struct Given {
    rd: u64,
    rj: u64,
    rk: u64,
    pc: u64,
    field: u32,
    second: u32,
}

impl Given {
    fn of(line: &[u8]) -> Given {
        Given {
            rd: text::number(line, 21, 16),
            rj: text::number(line, 38, 16),
            rk: text::number(line, 55, 16),
            pc: text::number(line, 72, 16),
            field: text::half(line, 89),
            second: text::half(line, 98),
        }
    }
}

fn mnemonic_of(line: &[u8]) -> Mnemonic {
    Mnemonic {
        family: text::number(line, 2, 2),
        operation: text::number(line, 5, 2),
    }
}

// The operation of this number; past the end, the last.
fn choose<T: Copy>(operations: &[T], number: u64) -> T
    requires { 0 < length operations.now }
{
    let last = operations.len() - 1;
    operations[last.min(number as usize)]
}

// The value that our function gives. A family that there is not gives 0, which its lines would show as differences.
fn value(mnemonic: Mnemonic, given: Given) -> u64 {
    let op = mnemonic.operation;
    let Given {
        rd,
        rj,
        rk,
        pc,
        field,
        second,
    } = given;
    match mnemonic.family {
        0 => alu::alu_value(choose(&operations::ALU, op), rj, rk),
        1 => alu::immediate_value(choose(&operations::IMMEDIATE, op), rj, field),
        2 => alu::upper_value(choose(&operations::UPPER, op), rd, pc, field),
        3 => alu::alsl_value(choose(&operations::ALSL, op), rj, rk, field),
        4 => product::product_value(choose(&operations::PRODUCT, op), rj, rk),
        5 => quotient::division_value(choose(&operations::DIVISION, op), rj, rk),
        6 => shift::shift_value(choose(&operations::SHIFT, op), rj, rk),
        7 => shift::shift_value(choose(&operations::SHIFT, op), rj, field as u64),
        8 => digits::unary_value(choose(&operations::UNARY, op), rj),
        9 => fields::bytepick_value(choose(&operations::BYTEPICK, op), rj, rk, field),
        10 => fields::field_value(choose(&operations::FIELD, op), rd, rj, field, second),
        11 => u64::from(word::less_than(rj, rk)),
        _ => 0,
    }
}

fn count_line(rt: &impl Print, mnemonics: &mut Mnemonics, line: &[u8]) -> io::Result<()> {
    let mnemonic = mnemonic_of(line);
    mnemonics.begin(rt, mnemonic, text::part(line, 8, 13), "lines")?;
    let found = value(mnemonic, Given::of(line));
    mnemonics.count(rt, line, found != text::number(line, 107, 16))
}

// A proved loop has to end, and nothing says that the input does: so no more lines are taken than a number that no run reaches. Of a
// last line that is cut nothing is said.
fn main(rt: HostRuntime) -> io::Result<()> {
    let mut mnemonics = Mnemonics::default();
    for line in Lines::<_, LINE>::new(rt.reader()).take(usize::MAX) {
        let Line::Whole(line) = line? else {
            break;
        };
        count_line(&rt, &mut mnemonics, &line)?;
    }
    mnemonics.end(&rt, "lines")
}
