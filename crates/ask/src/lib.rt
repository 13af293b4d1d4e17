// What an instruction asks for, of every family. No arena and no window is in sight.

#![tactic(auto)]

ghost use Rattle.std.specs.Prelude.{◌≡◌};
ghost use Rattle.effect.specs.Effect.{effect_of};

use bit_values::{bytepick_of, config_of, field_of, shift_immediate_of, shift_of, unary_of};
use effect::{Effect, assert_of, jump_of, pointer_of, trap_of};
use isa::Instruction;
use memory::Transfer;
use number_values::{alsl_of, alu_of, division_of, immediate_of, product_of, upper_of};
use operate::{at_index, at_offset, branch_to, zero_branch_to};
use place::GuestAddr;
use registers::get;

#[tactic(auto, unfolding(effect::specs::Effect::effect_of))]
pub fn ask(i: Instruction, regs: &[u64; 32], pc: GuestAddr) -> Effect
    ensures { result ≡ effect_of i regs.now pc }
{
    let next = operate::next(pc);
    match i {
        Instruction::Alu(op, o) => Effect::Write(o.rd, alu_of(op, o, regs), next),
        Instruction::Product(op, o) => Effect::Write(o.rd, product_of(op, o, regs), next),
        Instruction::Division(op, o) => Effect::Write(o.rd, division_of(op, o, regs), next),
        Instruction::Shift(op, o) => Effect::Write(o.rd, shift_of(op, o, regs), next),
        Instruction::ShiftImmediate(op, o) => {
            Effect::Write(o.rd, shift_immediate_of(op, o, regs), next)
        }
        Instruction::Immediate(op, o) => Effect::Write(o.rd, immediate_of(op, o, regs), next),
        Instruction::Upper(op, o) => Effect::Write(o.rd, upper_of(op, o, regs, pc), next),
        Instruction::Alsl(op, o) => Effect::Write(o.rd, alsl_of(op, o, regs), next),
        Instruction::Bytepick(op, o) => Effect::Write(o.rd, bytepick_of(op, o, regs), next),
        Instruction::Unary(op, o) => Effect::Write(o.rd, unary_of(op, o, regs), next),
        Instruction::Field(op, o) => Effect::Write(o.rd, field_of(op, o, regs), next),
        Instruction::Branch(op, o) => Effect::Jump(branch_to(op, o, regs, pc)),
        Instruction::ZeroBranch(op, o) => Effect::Jump(zero_branch_to(op, o, regs, pc)),
        Instruction::Jump(op, o) => jump_of(op, o, regs, pc),
        Instruction::Load(op, o) => Effect::Load(op, o.rd, at_offset(o, regs)),
        Instruction::LoadIndexed(op, o) => Effect::Load(op, o.rd, at_index(o, regs)),
        Instruction::Store(op, o) => {
            Effect::Store(op.width(), get(regs, o.rd), at_offset(o, regs))
        }
        Instruction::StoreIndexed(op, o) => {
            Effect::Store(op.width(), get(regs, o.rd), at_index(o, regs))
        }
        Instruction::Pointer(op, o) => pointer_of(op, o, regs, pc),
        Instruction::Preload(_, _) => Effect::Jump(next),
        Instruction::Barrier(_, _) => Effect::Jump(next),
        Instruction::Trap(op, o) => Effect::Raise(trap_of(op, o.imm)),
        Instruction::Assert(op, o) => assert_of(op, o, regs, pc),
        Instruction::Config(op, o) => Effect::Write(o.rd, config_of(op, o, regs), next),
    }
}
