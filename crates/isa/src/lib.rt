// Instructions: families, operations and operands.

#![tactic(auto)]

use alu::{Alsl, Alu, Immediate, Upper};
use digits::Unary;
use fields::{Bytepick, Field};
use product::Product;
use quotient::Division;
use shift::Shift;

// Operands are the word's own numbers: an immediate is not yet extended or scaled. What the format does not have is 0. The three
// structs have their fields at the same offsets, so that reading one costs the same in every case of an instruction. They stay three: a
// generic struct is no plainer, since it is the names of two fields that differ, and operands, field_operands and hint_operands say them.
#[derive(Clone, Copy)]
pub struct Operands {
    pub rd: u8,
    pub rj: u8,
    pub rk: u8,
    pub imm: u32,
}

// Of BSTRINS and BSTRPICK.
#[derive(Clone, Copy)]
pub struct FieldOperands {
    pub rd: u8,
    pub rj: u8,
    pub lsb: u8,
    pub msb: u32,
}

// Of PRELD and PRELDX.
#[derive(Clone, Copy)]
pub struct HintOperands {
    pub hint: u8,
    pub rj: u8,
    pub rk: u8,
    pub imm: u32,
}

#[derive(Clone, Copy)]
pub enum Branch {
    Beq,
    Bne,
    Blt,
    Bge,
    Bltu,
    Bgeu,
}

#[derive(Clone, Copy)]
pub enum ZeroBranch {
    Beqz,
    Bnez,
}

#[derive(Clone, Copy)]
pub enum Jump {
    B,
    Bl,
    Jirl,
}

#[derive(Clone, Copy)]
pub enum Load {
    LdB,
    LdH,
    LdW,
    LdD,
    LdBu,
    LdHu,
    LdWu,
}

#[derive(Clone, Copy)]
pub enum Store {
    StB,
    StH,
    StW,
    StD,
}

#[derive(Clone, Copy)]
pub enum Pointer {
    LdptrW,
    LdptrD,
    StptrW,
    StptrD,
}

#[derive(Clone, Copy)]
pub enum Preload {
    Preld,
    Preldx,
}

#[derive(Clone, Copy)]
pub enum Barrier {
    Dbar,
    Ibar,
}

#[derive(Clone, Copy)]
pub enum Trap {
    Syscall,
    Break,
}

#[derive(Clone, Copy)]
pub enum Assert {
    AsrtleD,
    AsrtgtD,
}

#[derive(Clone, Copy)]
pub enum Config {
    Cpucfg,
}

// The family, within it the operation, and the operands.
#[derive(Clone, Copy)]
pub enum Instruction {
    Alu(Alu, Operands),
    Product(Product, Operands),
    Division(Division, Operands),
    Shift(Shift, Operands),
    ShiftImmediate(Shift, Operands),
    Immediate(Immediate, Operands),
    Upper(Upper, Operands),
    Alsl(Alsl, Operands),
    Bytepick(Bytepick, Operands),
    Unary(Unary, Operands),
    Field(Field, FieldOperands),
    Branch(Branch, Operands),
    ZeroBranch(ZeroBranch, Operands),
    Jump(Jump, Operands),
    Load(Load, Operands),
    LoadIndexed(Load, Operands),
    Store(Store, Operands),
    StoreIndexed(Store, Operands),
    Pointer(Pointer, Operands),
    Preload(Preload, HintOperands),
    Barrier(Barrier, Operands),
    Trap(Trap, Operands),
    Assert(Assert, Operands),
    Config(Config, Operands),
}
