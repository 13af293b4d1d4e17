// An access with its operands. One function for both is no plainer: each of the three families has another format there, or another name.

#![tactic(auto)]

ghost use Rattle.std.specs.Prelude.{◌≡◌};
ghost use Rattle.opcode.specs.Found.{access, indexed_access};

use isa::Instruction;
use opcode::Access;

// At an offset.
pub fn at_offset(found: Option<Access>, word: u32) -> Option<Instruction>
    ensures { result ≡ access word found }
{
    Some(match found? {
        Access::Load(op) => Instruction::Load(op, operands::of_r2i::<12>(word)),
        Access::Store(op) => Instruction::Store(op, operands::of_r2i::<12>(word)),
        Access::Preload(op) => Instruction::Preload(op, operands::of_hint_i12(word)),
    })
}

// At an index.
pub fn at_index(found: Option<Access>, word: u32) -> Option<Instruction>
    ensures { result ≡ indexed_access word found }
{
    Some(match found? {
        Access::Load(op) => Instruction::LoadIndexed(op, operands::of_r3(word)),
        Access::Store(op) => Instruction::StoreIndexed(op, operands::of_r3(word)),
        Access::Preload(op) => Instruction::Preload(op, operands::of_hint_r2(word)),
    })
}
