// What an instruction asks for: a pure function of the instruction, the registers and the pc. No arena and no window is in sight. Here are
// the families that ask for different things; `ask` has them all.
// Registers and pc are arguments of their own: in a struct they would go through memory at each call (docs/DECISIONS.md).

#![tactic(auto)]

ghost use Rattle.std.specs.Prelude.{◌≡◌};
ghost use Rattle.isa.specs.declared.Instruction.{Instruction};
ghost use Rattle.effect.specs.Effect.{trap_of, effect_of};

use fault::Fault;
use isa::{Assert, Jump, Load, Operands, Pointer, Trap};
use operate::jump_to;
use place::{GuestAddr, Width};
use registers::get;

#[derive(Clone, Copy)]
pub enum Effect {
    // a register, its value, and the next pc
    Write(u8, u64, GuestAddr),
    // the next pc
    Jump(GuestAddr),
    // the kind, the register and the address
    Load(Load, u8, GuestAddr),
    // the width, the value and the address
    Store(Width, u64, GuestAddr),
    Raise(Fault),
}

// SYSCALL and BREAK raise with their code.
pub fn trap_of(op: Trap, code: u32) -> Fault
    ensures { result ≡ trap_of op code }
{
    match op {
        Trap::Syscall => Fault::Syscall(code),
        Trap::Break => Fault::Break(code),
    }
}

// B, BL and JIRL. The target is made before the return address is written.
#[tactic(auto, unfolding(crate::specs::Effect::effect_of))]
pub fn jump_of(op: Jump, o: Operands, regs: &[u64; 32], pc: GuestAddr) -> Effect
    ensures { result ≡ effect_of (Instruction.Jump op o) regs.now pc }
{
    let to = jump_to(op, o, regs, pc);
    let next = operate::next(pc);
    match op {
        Jump::B => Effect::Jump(to),
        Jump::Bl => Effect::Write(1, next.0, to),
        Jump::Jirl => Effect::Write(o.rd, next.0, to),
    }
}

// LDPTR and STPTR.
#[tactic(auto, unfolding(crate::specs::Effect::effect_of))]
pub fn pointer_of(op: Pointer, o: Operands, regs: &[u64; 32], pc: GuestAddr) -> Effect
    ensures { result ≡ effect_of (Instruction.Pointer op o) regs.now pc }
{
    let a = operate::at_pointer(o, regs);
    match op {
        Pointer::LdptrW => Effect::Load(Load::LdW, o.rd, a),
        Pointer::LdptrD => Effect::Load(Load::LdD, o.rd, a),
        Pointer::StptrW => Effect::Store(Width::Word, get(regs, o.rd), a),
        Pointer::StptrD => Effect::Store(Width::Double, get(regs, o.rd), a),
    }
}

// ASRTLE.D and ASRTGT.D.
#[tactic(auto, unfolding(crate::specs::Effect::effect_of))]
pub fn assert_of(op: Assert, o: Operands, regs: &[u64; 32], pc: GuestAddr) -> Effect
    ensures { result ≡ effect_of (Instruction.Assert op o) regs.now pc }
{
    if control::passes(op, get(regs, o.rj), get(regs, o.rk)) {
        Effect::Jump(operate::next(pc))
    } else {
        Effect::Raise(Fault::Bce)
    }
}
