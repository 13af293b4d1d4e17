// Each family of arithmetic on its operands: the registers and fields that it takes, and what it makes of them.
// A function for each family, and no trait over the families: an impl for each would name the same value function again, in more lines.

#![tactic(auto)]

ghost use Rattle.std.specs.Prelude.{◌≡◌};
ghost use Rattle.alu.specs.Alu.{alu_of};
ghost use Rattle.alu.specs.Immediate.{immediate_of};
ghost use Rattle.alu.specs.Upper.{upper_of};
ghost use Rattle.alu.specs.Alsl.{alsl_of};
ghost use Rattle.product.specs.Product.{product_of};
ghost use Rattle.quotient.specs.Quotient.{division_of};
ghost use Rattle.registers.specs.Registers.{reg};

use alu::{Alsl, Alu, Immediate, Upper};
use isa::Operands;
use place::GuestAddr;
use product::Product;
use quotient::Division;

pub fn alu_of(op: Alu, o: Operands, regs: &[u64; 32]) -> u64
    ensures { result ≡ alu_of op (reg regs.now o.rj) (reg regs.now o.rk) }
{
    alu::alu_value(op, registers::get(regs, o.rj), registers::get(regs, o.rk))
}

pub fn product_of(op: Product, o: Operands, regs: &[u64; 32]) -> u64
    ensures { result ≡ product_of op (reg regs.now o.rj) (reg regs.now o.rk) }
{
    product::product_value(op, registers::get(regs, o.rj), registers::get(regs, o.rk))
}

pub fn division_of(op: Division, o: Operands, regs: &[u64; 32]) -> u64
    ensures { result ≡ division_of op (reg regs.now o.rj) (reg regs.now o.rk) }
{
    quotient::division_value(op, registers::get(regs, o.rj), registers::get(regs, o.rk))
}

pub fn immediate_of(op: Immediate, o: Operands, regs: &[u64; 32]) -> u64
    ensures { result ≡ immediate_of op (reg regs.now o.rj) o.imm }
{
    alu::immediate_value(op, registers::get(regs, o.rj), o.imm)
}

pub fn upper_of(op: Upper, o: Operands, regs: &[u64; 32], pc: GuestAddr) -> u64
    ensures { result ≡ upper_of op (reg regs.now o.rd) pc.0 o.imm }
{
    alu::upper_value(op, registers::get(regs, o.rd), pc.0, o.imm)
}

pub fn alsl_of(op: Alsl, o: Operands, regs: &[u64; 32]) -> u64
    ensures { result ≡ alsl_of op (reg regs.now o.rj) (reg regs.now o.rk) o.imm }
{
    alu::alsl_value(
        op,
        registers::get(regs, o.rj),
        registers::get(regs, o.rk),
        o.imm,
    )
}
