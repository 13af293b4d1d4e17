// What the opcode of a word is, where words of one format have many. A function for each beginning that words have in common: its arms
// stand in the table's order, which is what the proof of the last arm asks. One function for all of them is no plainer: no two share an arm.

#![tactic(auto)]

ghost use Rattle.std.specs.Prelude.{◌≡◌, ◌/◌, ◌^◌};
ghost use Rattle.opcode.specs.Decode.{decode_of};
ghost use Rattle.opcode.specs.Found.{three_r, two_r};

use alu::Alu;
use digits::Unary;
use isa::{Config, Load, Preload, Store};
use product::Product;
use quotient::Division;
use shift::Shift;

// The operation, or that the word does not exist.
#[derive(Clone, Copy)]
pub enum ThreeR {
    Alu(Alu),
    Product(Product),
    Division(Division),
    Shift(Shift),
}

#[derive(Clone, Copy)]
pub enum TwoR {
    Unary(Unary),
    Config(Config),
}

#[derive(Clone, Copy)]
pub enum Access {
    Load(Load),
    Store(Store),
    Preload(Preload),
}

// ADD, SUB, SLT, MASKEQZ and MASKNEZ.
pub fn sums(word: u32) -> Option<ThreeR>
    requires { word / 2 ^ 18 ≡ 4 }
    ensures { three_r word result ≡ decode_of word }
{
    match word / 0x8000 {
        0x20 => Some(ThreeR::Alu(Alu::AddW)),
        0x21 => Some(ThreeR::Alu(Alu::AddD)),
        0x22 => Some(ThreeR::Alu(Alu::SubW)),
        0x23 => Some(ThreeR::Alu(Alu::SubD)),
        0x24 => Some(ThreeR::Alu(Alu::Slt)),
        0x25 => Some(ThreeR::Alu(Alu::Sltu)),
        0x26 => Some(ThreeR::Alu(Alu::Maskeqz)),
        0x27 => Some(ThreeR::Alu(Alu::Masknez)),
        _ => None,
    }
}

// AND to ORN, SLL.W, SRL.W.
pub fn bitwise(word: u32) -> Option<ThreeR>
    requires { word / 2 ^ 18 ≡ 5 }
    ensures { three_r word result ≡ decode_of word }
{
    match word / 0x8000 {
        0x29 => Some(ThreeR::Alu(Alu::And)),
        0x2a => Some(ThreeR::Alu(Alu::Or)),
        0x28 => Some(ThreeR::Alu(Alu::Nor)),
        0x2b => Some(ThreeR::Alu(Alu::Xor)),
        0x2d => Some(ThreeR::Alu(Alu::Andn)),
        0x2c => Some(ThreeR::Alu(Alu::Orn)),
        0x2e => Some(ThreeR::Shift(Shift::SllW)),
        0x2f => Some(ThreeR::Shift(Shift::SrlW)),
        _ => None,
    }
}

// The other shifts by a register.
pub fn shifts(word: u32) -> Option<ThreeR>
    requires { word / 2 ^ 18 ≡ 6 }
    ensures { three_r word result ≡ decode_of word }
{
    match word / 0x8000 {
        0x30 => Some(ThreeR::Shift(Shift::SraW)),
        0x36 => Some(ThreeR::Shift(Shift::RotrW)),
        0x31 => Some(ThreeR::Shift(Shift::SllD)),
        0x32 => Some(ThreeR::Shift(Shift::SrlD)),
        0x33 => Some(ThreeR::Shift(Shift::SraD)),
        0x37 => Some(ThreeR::Shift(Shift::RotrD)),
        _ => None,
    }
}

// MUL.
pub fn products(word: u32) -> Option<ThreeR>
    requires { word / 2 ^ 18 ≡ 7 }
    ensures { three_r word result ≡ decode_of word }
{
    match word / 0x8000 {
        0x38 => Some(ThreeR::Product(Product::MulW)),
        0x3b => Some(ThreeR::Product(Product::MulD)),
        0x39 => Some(ThreeR::Product(Product::MulhW)),
        0x3a => Some(ThreeR::Product(Product::MulhWu)),
        0x3c => Some(ThreeR::Product(Product::MulhD)),
        0x3d => Some(ThreeR::Product(Product::MulhDu)),
        0x3e => Some(ThreeR::Product(Product::MulwDW)),
        0x3f => Some(ThreeR::Product(Product::MulwDWu)),
        _ => None,
    }
}

// DIV and MOD.
pub fn divisions(word: u32) -> Option<ThreeR>
    requires { word / 2 ^ 18 ≡ 8 }
    ensures { three_r word result ≡ decode_of word }
{
    match word / 0x8000 {
        0x40 => Some(ThreeR::Division(Division::DivW)),
        0x41 => Some(ThreeR::Division(Division::ModW)),
        0x42 => Some(ThreeR::Division(Division::DivWu)),
        0x43 => Some(ThreeR::Division(Division::ModWu)),
        0x44 => Some(ThreeR::Division(Division::DivD)),
        0x45 => Some(ThreeR::Division(Division::ModD)),
        0x46 => Some(ThreeR::Division(Division::DivDu)),
        0x47 => Some(ThreeR::Division(Division::ModDu)),
        _ => None,
    }
}

// One register in, one out.
pub fn unaries(word: u32) -> Option<TwoR>
    requires { word / 2 ^ 15 ≡ 0 }
    ensures { two_r word result ≡ decode_of word }
{
    match word / 0x400 {
        0x17 => Some(TwoR::Unary(Unary::ExtWB)),
        0x16 => Some(TwoR::Unary(Unary::ExtWH)),
        0x4 => Some(TwoR::Unary(Unary::CloW)),
        0x8 => Some(TwoR::Unary(Unary::CloD)),
        0x5 => Some(TwoR::Unary(Unary::ClzW)),
        0x9 => Some(TwoR::Unary(Unary::ClzD)),
        0x6 => Some(TwoR::Unary(Unary::CtoW)),
        0xa => Some(TwoR::Unary(Unary::CtoD)),
        0x7 => Some(TwoR::Unary(Unary::CtzW)),
        0xb => Some(TwoR::Unary(Unary::CtzD)),
        0xc => Some(TwoR::Unary(Unary::Revb2h)),
        0xd => Some(TwoR::Unary(Unary::Revb4h)),
        0xe => Some(TwoR::Unary(Unary::Revb2w)),
        0xf => Some(TwoR::Unary(Unary::RevbD)),
        0x10 => Some(TwoR::Unary(Unary::Revh2w)),
        0x11 => Some(TwoR::Unary(Unary::RevhD)),
        0x12 => Some(TwoR::Unary(Unary::Bitrev4b)),
        0x13 => Some(TwoR::Unary(Unary::Bitrev8b)),
        0x14 => Some(TwoR::Unary(Unary::BitrevW)),
        0x15 => Some(TwoR::Unary(Unary::BitrevD)),
        0x1b => Some(TwoR::Config(Config::Cpucfg)),
        _ => None,
    }
}
