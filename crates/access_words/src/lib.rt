// Words of LDPTR and STPTR, of an index in a register, and of barriers. A function for each beginning that they have in common, with its
// arms in the table's order.

#![tactic(auto)]

ghost use Rattle.std.specs.Prelude.{◌≡◌, ◌/◌, ◌^◌};
ghost use Rattle.opcode.specs.Decode.{decode_of};

use isa::{Barrier, Instruction, Pointer};

// LDPTR and STPTR.
pub fn pointers(word: u32) -> Option<Instruction>
    requires { word / 2 ^ 26 ≡ 9 }
    ensures { result ≡ decode_of word }
{
    match word / 0x100_0000 {
        0x24 => Some(Instruction::Pointer(Pointer::LdptrW, operands::of_r2i::<14>(word))),
        0x26 => Some(Instruction::Pointer(Pointer::LdptrD, operands::of_r2i::<14>(word))),
        0x25 => Some(Instruction::Pointer(Pointer::StptrW, operands::of_r2i::<14>(word))),
        0x27 => Some(Instruction::Pointer(Pointer::StptrD, operands::of_r2i::<14>(word))),
        _ => None,
    }
}

// DBAR and IBAR.
fn barriers(word: u32) -> Option<Instruction>
    requires { word / 2 ^ 22 ≡ 0xe1 }
    ensures { result ≡ decode_of word }
{
    let o = operands::of_i15(word);
    match word / 0x8000 {
        0x70e4 => Some(Instruction::Barrier(Barrier::Dbar, o)),
        0x70e5 => Some(Instruction::Barrier(Barrier::Ibar, o)),
        _ => None,
    }
}

// An index in a register, and barriers.
pub fn registers_only(word: u32) -> Option<Instruction>
    requires { word / 2 ^ 26 ≡ 14 }
    ensures { result ≡ decode_of word }
{
    match word / 0x40_0000 {
        0xe0 => accesses::at_index(access_opcodes::indexed(word), word),
        0xe1 => barriers(word),
        _ => None,
    }
}
