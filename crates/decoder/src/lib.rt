// The instruction that a word is: a function for each beginning that words have in common, with its arms in the table's order.

#![tactic(auto)]

ghost use Rattle.std.specs.Prelude.{◌≡◌};
ghost use Rattle.opcode.specs.Decode.{Decodes};
ghost use Rattle.decoder.specs.Found.{upper_pair};

use alu::{Immediate, Upper};
use isa::{Branch, Instruction, Jump, ZeroBranch};

// Two operations that differ in one bit of the opcode.
fn uppers(bit: bool, set: Upper, clear: Upper, word: u32) -> Option<Instruction>
    ensures { result ≡ upper_pair bit set clear word }
{
    let op = if bit { set } else { clear };
    Some(Instruction::Upper(op, operands::of_r1i20(word)))
}

// The instruction of a word, for every word.
pub fn decode(word: u32) -> Option<Instruction>
    ensures { Decodes word result }
{
    let bit = word / 0x200_0000 % 2 == 1;
    match word / 0x400_0000 {
        0x0 => arithmetic::zeros(word),
        0x4 => Some(Instruction::Immediate(Immediate::Addu16iD, operands::of_r2i::<16>(word))),
        0x5 => uppers(bit, Upper::Lu32iD, Upper::Lu12iW, word),
        0x6 => uppers(bit, Upper::Pcalau12i, Upper::Pcaddi, word),
        0x7 => uppers(bit, Upper::Pcaddu18i, Upper::Pcaddu12i, word),
        0x16 => Some(Instruction::Branch(Branch::Beq, operands::of_r2i::<16>(word))),
        0x17 => Some(Instruction::Branch(Branch::Bne, operands::of_r2i::<16>(word))),
        0x18 => Some(Instruction::Branch(Branch::Blt, operands::of_r2i::<16>(word))),
        0x19 => Some(Instruction::Branch(Branch::Bge, operands::of_r2i::<16>(word))),
        0x1a => Some(Instruction::Branch(Branch::Bltu, operands::of_r2i::<16>(word))),
        0x1b => Some(Instruction::Branch(Branch::Bgeu, operands::of_r2i::<16>(word))),
        0x10 => Some(Instruction::ZeroBranch(ZeroBranch::Beqz, operands::of_r1i21(word))),
        0x11 => Some(Instruction::ZeroBranch(ZeroBranch::Bnez, operands::of_r1i21(word))),
        0x14 => Some(Instruction::Jump(Jump::B, operands::of_i26(word))),
        0x15 => Some(Instruction::Jump(Jump::Bl, operands::of_i26(word))),
        0x13 => Some(Instruction::Jump(Jump::Jirl, operands::of_r2i::<16>(word))),
        0xa => accesses::at_offset(access_opcodes::accesses(word), word),
        0xe => access_words::registers_only(word),
        0x9 => access_words::pointers(word),
        _ => None,
    }
}
