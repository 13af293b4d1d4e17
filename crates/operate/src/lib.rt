// Where branches, jumps and accesses lead, from their operands.
// Registers and pc are arguments of their own, as everywhere in a step: in a struct they would go through memory at each call (docs/DECISIONS.md).

#![tactic(auto)]

ghost use Rattle.std.specs.Prelude.{◌≡◌, ◌<◌, ◌≤◌, cond};
ghost use Rattle.control.specs.Control.{words_on_of};
ghost use Rattle.operate.specs.Operate.{next_of, address_in, branch_to, zero_branch_to, jump_to, at_offset, at_index, at_pointer};

use isa::{Branch, Jump, Operands, ZeroBranch};
use place::GuestAddr;

pub fn next(pc: GuestAddr) -> GuestAddr
    ensures { result ≡ next_of pc }
{
    pc.plus(4)
}

// A register as an address.
fn address_in(regs: &[u64; 32], register: u8) -> GuestAddr
    ensures { result ≡ address_in regs.now register }
{
    GuestAddr(registers::get(regs, register))
}

// Where a branch leads: by its offset, which has k bits with the two zeros below it, or to the next instruction.
fn branch(taken: bool, pc: GuestAddr, offs: u32, k: u64) -> GuestAddr
    requires { (0 < k) × (k ≤ 64) }
    ensures { result ≡ cond taken (words_on_of pc offs k) (next_of pc) }
{
    if taken {
        control::words_on(pc, offs, k)
    } else {
        next(pc)
    }
}

pub fn branch_to(op: Branch, o: Operands, regs: &[u64; 32], pc: GuestAddr) -> GuestAddr
    ensures { result ≡ branch_to op o regs.now pc }
{
    let taken = control::taken(op, registers::get(regs, o.rj), registers::get(regs, o.rd));
    branch(taken, pc, o.imm, 18)
}

pub fn zero_branch_to(op: ZeroBranch, o: Operands, regs: &[u64; 32], pc: GuestAddr) -> GuestAddr
    ensures { result ≡ zero_branch_to op o regs.now pc }
{
    let taken = control::zero_taken(op, registers::get(regs, o.rj));
    branch(taken, pc, o.imm, 23)
}

pub fn jump_to(op: Jump, o: Operands, regs: &[u64; 32], pc: GuestAddr) -> GuestAddr
    ensures { result ≡ jump_to op o regs.now pc }
{
    match op {
        Jump::B => control::words_on(pc, o.imm, 28),
        Jump::Bl => control::words_on(pc, o.imm, 28),
        Jump::Jirl => control::words_on(address_in(regs, o.rj), o.imm, 18),
    }
}

pub fn at_offset(o: Operands, regs: &[u64; 32]) -> GuestAddr
    ensures { result ≡ at_offset o regs.now }
{
    control::bytes_on(address_in(regs, o.rj), o.imm)
}

pub fn at_index(o: Operands, regs: &[u64; 32]) -> GuestAddr
    ensures { result ≡ at_index o regs.now }
{
    address_in(regs, o.rj).plus(registers::get(regs, o.rk))
}

pub fn at_pointer(o: Operands, regs: &[u64; 32]) -> GuestAddr
    ensures { result ≡ at_pointer o regs.now }
{
    control::words_on(address_in(regs, o.rj), o.imm, 16)
}
