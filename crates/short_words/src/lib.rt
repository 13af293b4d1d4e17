// Words of one register in and one out, of ASRT, and of the traps: their first fourteen bits are 0 or 10.

#![tactic(auto)]

ghost use Rattle.std.specs.Prelude.{◌≡◌, ◌/◌, ◌^◌};
ghost use Rattle.opcode.specs.Decode.{decode_of};
ghost use Rattle.opcode.specs.Found.{two_r};
ghost use Rattle.short_words.specs.Found.{assertion};

use isa::{Assert, Instruction, Trap};
use opcode::TwoR;

// The operation of a 2R word, with its operands.
fn two(found: Option<TwoR>, word: u32) -> Option<Instruction>
    ensures { result ≡ two_r word found }
{
    let o = operands::of_r2(word);
    Some(match found? {
        TwoR::Unary(op) => Instruction::Unary(op, o),
        TwoR::Config(op) => Instruction::Config(op, o),
    })
}

// ASRT, if bits 4:0 are zero.
fn assert(zero: bool, op: Assert, word: u32) -> Option<Instruction>
    ensures { result ≡ assertion zero op word }
{
    zero.then_some(Instruction::Assert(op, operands::of_asrt(word)))
}

// SYSCALL and BREAK.
pub fn traps(word: u32) -> Option<Instruction>
    requires { word / 2 ^ 18 ≡ 10 }
    ensures { result ≡ decode_of word }
{
    let o = operands::of_i15(word);
    match word / 0x8000 {
        0x56 => Some(Instruction::Trap(Trap::Syscall, o)),
        0x54 => Some(Instruction::Trap(Trap::Break, o)),
        _ => None,
    }
}

// One register in, one out, and ASRT.
pub fn short_ones(word: u32) -> Option<Instruction>
    requires { word / 2 ^ 18 ≡ 0 }
    ensures { result ≡ decode_of word }
{
    match word / 0x8000 {
        0x0 => two(opcode::unaries(word), word),
        0x2 => assert(word % 0x20 == 0, Assert::AsrtleD, word),
        0x3 => assert(word % 0x20 == 0, Assert::AsrtgtD, word),
        _ => None,
    }
}
