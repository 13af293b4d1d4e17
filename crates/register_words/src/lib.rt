// Words that begin with ten zeros: no immediate but two or three bits. A function for each beginning that they have in common, with its
// arms in the table's order.

#![tactic(auto)]

ghost use Rattle.std.specs.Prelude.{◌≡◌, ◌/◌, ◌^◌};
ghost use Rattle.opcode.specs.Decode.{decode_of};
ghost use Rattle.opcode.specs.Found.{three_r};

use alu::Alsl;
use fields::Bytepick;
use isa::Instruction;
use opcode::ThreeR;

// The operation of a 3R word, with its operands.
fn three(found: Option<ThreeR>, word: u32) -> Option<Instruction>
    ensures { result ≡ three_r word found }
{
    let o = operands::of_r3(word);
    Some(match found? {
        ThreeR::Alu(op) => Instruction::Alu(op, o),
        ThreeR::Product(op) => Instruction::Product(op, o),
        ThreeR::Division(op) => Instruction::Division(op, o),
        ThreeR::Shift(op) => Instruction::Shift(op, o),
    })
}

// ALSL.W and ALSL.WU.
fn alsl_words(word: u32) -> Option<Instruction>
    requires { word / 2 ^ 18 ≡ 1 }
    ensures { result ≡ decode_of word }
{
    let o = operands::of_r3i::<2>(word);
    match word / 0x2_0000 {
        0x2 => Some(Instruction::Alsl(Alsl::AlslW, o)),
        0x3 => Some(Instruction::Alsl(Alsl::AlslWu, o)),
        _ => None,
    }
}

// ALSL.D.
fn alsl_doubles(word: u32) -> Option<Instruction>
    requires { word / 2 ^ 18 ≡ 11 }
    ensures { result ≡ decode_of word }
{
    match word / 0x2_0000 {
        0x16 => Some(Instruction::Alsl(Alsl::AlslD, operands::of_r3i::<2>(word))),
        _ => None,
    }
}

// BYTEPICK.W.
fn bytepick_words(word: u32) -> Option<Instruction>
    requires { word / 2 ^ 18 ≡ 2 }
    ensures { result ≡ decode_of word }
{
    match word / 0x2_0000 {
        0x4 => Some(Instruction::Bytepick(Bytepick::BytepickW, operands::of_r3i::<2>(word))),
        _ => None,
    }
}

// Words that begin with ten zeros: no immediate but two or three bits.
pub fn registers(word: u32) -> Option<Instruction>
    requires { word / 2 ^ 22 ≡ 0 }
    ensures { result ≡ decode_of word }
{
    match word / 0x4_0000 {
        0x4 => three(opcode::sums(word), word),
        0x5 => three(opcode::bitwise(word), word),
        0x7 => three(opcode::products(word), word),
        0x8 => three(opcode::divisions(word), word),
        0x6 => three(opcode::shifts(word), word),
        0x1 => alsl_words(word),
        0xb => alsl_doubles(word),
        0x2 => bytepick_words(word),
        0x3 => Some(Instruction::Bytepick(Bytepick::BytepickD, operands::of_r3i::<3>(word))),
        0x0 => short_words::short_ones(word),
        0xa => short_words::traps(word),
        _ => None,
    }
}
