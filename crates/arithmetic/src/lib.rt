// The instruction of a word that begins with six zeros: arithmetic, but for ADDU16I.D and the 20-bit immediates, and the traps, ASRT and
// CPUCFG. A function for each beginning that words have in common, with its arms in the table's order.

#![tactic(auto)]

ghost use Rattle.std.specs.Prelude.{◌≡◌, ◌/◌, ◌^◌};
ghost use Rattle.opcode.specs.Decode.{decode_of};

use alu::Immediate;
use fields::Field;
use isa::Instruction;

// Words that begin with six zeros.
pub fn zeros(word: u32) -> Option<Instruction>
    requires { word / 2 ^ 26 ≡ 0 }
    ensures { result ≡ decode_of word }
{
    match word / 0x40_0000 {
        0x0 => register_words::registers(word),
        0x1 => short_immediates::short_immediates(word),
        0xa => Some(Instruction::Immediate(Immediate::AddiW, operands::of_r2i::<12>(word))),
        0xb => Some(Instruction::Immediate(Immediate::AddiD, operands::of_r2i::<12>(word))),
        0x8 => Some(Instruction::Immediate(Immediate::Slti, operands::of_r2i::<12>(word))),
        0x9 => Some(Instruction::Immediate(Immediate::Sltui, operands::of_r2i::<12>(word))),
        0xc => Some(Instruction::Immediate(Immediate::Lu52iD, operands::of_r2i::<12>(word))),
        0xd => Some(Instruction::Immediate(Immediate::Andi, operands::of_r2i::<12>(word))),
        0xe => Some(Instruction::Immediate(Immediate::Ori, operands::of_r2i::<12>(word))),
        0xf => Some(Instruction::Immediate(Immediate::Xori, operands::of_r2i::<12>(word))),
        0x2 => short_immediates::bit_field::<6>(Field::BstrinsD, word),
        0x3 => short_immediates::bit_field::<6>(Field::BstrpickD, word),
        _ => None,
    }
}
