// Shifts, bits and CPUCFG on their operands: the registers and fields that each family takes, and what it makes of them.
// A function for each family, and no trait over the families: an impl for each would name the same value function again, in more lines.

#![tactic(auto)]

ghost use Rattle.std.specs.Prelude.{◌≡◌};
ghost use Rattle.shift.specs.Shift.{shift_of};
ghost use Rattle.digits.specs.Unary.{unary_of};
ghost use Rattle.fields.specs.Bytepick.{bytepick_of};
ghost use Rattle.fields.specs.Field.{field_of};
ghost use Rattle.control.specs.Control.{config_of};
ghost use Rattle.registers.specs.Registers.{reg};

use digits::Unary;
use fields::{Bytepick, Field};
use isa::{Config, FieldOperands, Operands};
use shift::Shift;

pub fn shift_of(op: Shift, o: Operands, regs: &[u64; 32]) -> u64
    ensures { result ≡ shift_of op (reg regs.now o.rj) (reg regs.now o.rk) }
{
    shift::shift_value(op, registers::get(regs, o.rj), registers::get(regs, o.rk))
}

pub fn shift_immediate_of(op: Shift, o: Operands, regs: &[u64; 32]) -> u64
    ensures { result ≡ shift_of op (reg regs.now o.rj) o.imm }
{
    shift::shift_value(op, registers::get(regs, o.rj), o.imm as u64)
}

pub fn bytepick_of(op: Bytepick, o: Operands, regs: &[u64; 32]) -> u64
    ensures { result ≡ bytepick_of op (reg regs.now o.rj) (reg regs.now o.rk) o.imm }
{
    fields::bytepick_value(
        op,
        registers::get(regs, o.rj),
        registers::get(regs, o.rk),
        o.imm,
    )
}

pub fn unary_of(op: Unary, o: Operands, regs: &[u64; 32]) -> u64
    ensures { result ≡ unary_of op (reg regs.now o.rj) }
{
    digits::unary_value(op, registers::get(regs, o.rj))
}

pub fn field_of(op: Field, o: FieldOperands, regs: &[u64; 32]) -> u64
    ensures { result ≡ field_of op (reg regs.now o.rd) (reg regs.now o.rj) o.msb o.lsb }
{
    fields::field_value(
        op,
        registers::get(regs, o.rd),
        registers::get(regs, o.rj),
        o.msb,
        o.lsb as u32,
    )
}

pub fn config_of(op: Config, o: Operands, regs: &[u64; 32]) -> u64
    ensures { result ≡ config_of op (reg regs.now o.rj) }
{
    control::config(op, registers::get(regs, o.rj))
}
