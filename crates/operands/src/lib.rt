// The operands of a word, by its format.

#![tactic(auto)]

ghost use Rattle.std.specs.Prelude.{◌≡◌, ◌≤◌};
ghost use Rattle.isa.specs.Format.{values, r2, r3, r1i20, r1i21, i26, i15, asrt, hint_i12, hint_r2};
ghost use Rattle.isa.specs.Operands.{operands, hint_operands};
ghost use Rattle.operands.specs.Sized.{r2i, r3i, field_at, field_allowed};

use isa::{FieldOperands, HintOperands, Operands};
use parts::{RD, RJ, RK, bits, offset, register};

pub fn of_r2(word: u32) -> Operands
    ensures { result ≡ operands (values r2 word) }
{
    Operands {
        rd: register::<RD>(word),
        rj: register::<RJ>(word),
        rk: 0,
        imm: 0,
    }
}

pub fn of_r3(word: u32) -> Operands
    ensures { result ≡ operands (values r3 word) }
{
    Operands {
        rd: register::<RD>(word),
        rj: register::<RJ>(word),
        rk: register::<RK>(word),
        imm: 0,
    }
}

// Three registers, and an immediate of `SIZE` bits.
pub fn of_r3i<const SIZE: u32>(word: u32) -> Operands
    requires { SIZE ≤ 16 }
    ensures { result ≡ operands (values (r3i SIZE) word) }
{
    Operands {
        rd: register::<RD>(word),
        rj: register::<RJ>(word),
        rk: register::<RK>(word),
        imm: bits::<15, SIZE>(word),
    }
}

// Two registers, and an immediate of `SIZE` bits.
pub fn of_r2i<const SIZE: u32>(word: u32) -> Operands
    requires { SIZE ≤ 16 }
    ensures { result ≡ operands (values (r2i SIZE) word) }
{
    Operands {
        rd: register::<RD>(word),
        rj: register::<RJ>(word),
        rk: 0,
        imm: bits::<10, SIZE>(word),
    }
}

pub fn of_r1i20(word: u32) -> Operands
    ensures { result ≡ operands (values r1i20 word) }
{
    Operands {
        rd: register::<RD>(word),
        rj: 0,
        rk: 0,
        imm: bits::<5, 20>(word),
    }
}

pub fn of_r1i21(word: u32) -> Operands
    ensures { result ≡ operands (values r1i21 word) }
{
    Operands {
        rd: 0,
        rj: register::<RJ>(word),
        rk: 0,
        imm: offset::<5>(word),
    }
}

pub fn of_i26(word: u32) -> Operands
    ensures { result ≡ operands (values i26 word) }
{
    Operands {
        rd: 0,
        rj: 0,
        rk: 0,
        imm: offset::<10>(word),
    }
}

pub fn of_i15(word: u32) -> Operands
    ensures { result ≡ operands (values i15 word) }
{
    Operands {
        rd: 0,
        rj: 0,
        rk: 0,
        imm: bits::<0, 15>(word),
    }
}

pub fn of_asrt(word: u32) -> Operands
    ensures { result ≡ operands (values asrt word) }
{
    Operands {
        rd: 0,
        rj: register::<RJ>(word),
        rk: register::<RK>(word),
        imm: 0,
    }
}

// Of a bit field whose ends have `SIZE` bits each.
pub fn of_field<const SIZE: u32>(word: u32) -> FieldOperands
    requires { SIZE ≤ 8 }
    ensures { result ≡ field_at SIZE word }
{
    FieldOperands {
        rd: register::<RD>(word),
        rj: register::<RJ>(word),
        lsb: bits::<10, SIZE>(word) as u8,
        msb: bits::<16, SIZE>(word),
    }
}

pub fn of_hint_i12(word: u32) -> HintOperands
    ensures { result ≡ hint_operands (values hint_i12 word) }
{
    HintOperands {
        hint: register::<RD>(word),
        rj: register::<RJ>(word),
        rk: 0,
        imm: bits::<10, 12>(word),
    }
}

pub fn of_hint_r2(word: u32) -> HintOperands
    ensures { result ≡ hint_operands (values hint_r2 word) }
{
    HintOperands {
        hint: register::<RD>(word),
        rj: register::<RJ>(word),
        rk: register::<RK>(word),
        imm: 0,
    }
}

// Such a field exists: msb is not below lsb.
pub fn field_exists<const SIZE: u32>(word: u32) -> bool
    requires { SIZE ≤ 8 }
    ensures { result ≡ field_allowed SIZE word }
{
    bits::<10, SIZE>(word) <= bits::<16, SIZE>(word)
}
