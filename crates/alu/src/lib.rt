// Sums, comparisons and bitwise operations: numbers in, a number out. A field of the word comes as its own value.

#![tactic(auto)]

ghost use Rattle.std.specs.Prelude.{◌≡◌};
ghost use Rattle.alu.specs.Alu.{alu_of};
ghost use Rattle.alu.specs.Immediate.{immediate_of};
ghost use Rattle.alu.specs.Upper.{upper_of};
ghost use Rattle.alu.specs.Alsl.{alsl_of};

// Two registers.
#[derive(Clone, Copy)]
pub enum Alu {
    AddW,
    AddD,
    SubW,
    SubD,
    Slt,
    Sltu,
    And,
    Or,
    Nor,
    Xor,
    Andn,
    Orn,
    Maskeqz,
    Masknez,
}

// A register and an immediate.
#[derive(Clone, Copy)]
pub enum Immediate {
    AddiW,
    AddiD,
    Addu16iD,
    Slti,
    Sltui,
    Lu52iD,
    Andi,
    Ori,
    Xori,
}

// A 20-bit immediate put high, alone or on top of rd or pc.
#[derive(Clone, Copy)]
pub enum Upper {
    Lu12iW,
    Lu32iD,
    Pcaddi,
    Pcaddu12i,
    Pcaddu18i,
    Pcalau12i,
}

// A register shifted, and a register added.
#[derive(Clone, Copy)]
pub enum Alsl {
    AlslW,
    AlslWu,
    AlslD,
}

#[tactic(auto, unfolding(crate::specs::Alu::alu_of))]
pub fn alu_value(op: Alu, rj: u64, rk: u64) -> u64
    ensures { result ≡ alu_of op rj rk }
{
    match op {
        Alu::AddW => word::sign_extend(word::add_d(rj, rk), 32),
        Alu::AddD => word::add_d(rj, rk),
        Alu::SubW => word::sign_extend(word::sub_d(rj, rk), 32),
        Alu::SubD => word::sub_d(rj, rk),
        Alu::Slt => word::less_than(rj, rk) as u64,
        Alu::Sltu => (rj < rk) as u64,
        Alu::And => rj & rk,
        Alu::Or => rj | rk,
        Alu::Nor => !(rj | rk),
        Alu::Xor => rj ^ rk,
        Alu::Andn => rj & !rk,
        Alu::Orn => rj | !rk,
        Alu::Maskeqz => if rk == 0 { 0 } else { rj },
        Alu::Masknez => if rk == 0 { rj } else { 0 },
    }
}

#[tactic(auto, unfolding(crate::specs::Immediate::immediate_of))]
pub fn immediate_value(op: Immediate, rj: u64, imm: u32) -> u64
    ensures { result ≡ immediate_of op rj imm }
{
    let field = imm as u64;
    match op {
        Immediate::AddiW => word::sign_extend(word::add_d(rj, word::sign_extend(field, 12)), 32),
        Immediate::AddiD => word::add_d(rj, word::sign_extend(field, 12)),
        Immediate::Addu16iD => word::add_d(rj, word::sign_extend(field * 0x1_0000, 32)),
        Immediate::Slti => word::less_than(rj, word::sign_extend(field, 12)) as u64,
        Immediate::Sltui => (rj < word::sign_extend(field, 12)) as u64,
        Immediate::Lu52iD => field % 0x1000 * 0x10_0000_0000_0000 + rj % 0x10_0000_0000_0000,
        Immediate::Andi => rj & (field % 0x1000),
        Immediate::Ori => rj | (field % 0x1000),
        Immediate::Xori => rj ^ (field % 0x1000),
    }
}

#[tactic(auto, unfolding(crate::specs::Upper::upper_of))]
pub fn upper_value(op: Upper, rd: u64, pc: u64, si20: u32) -> u64
    ensures { result ≡ upper_of op rd pc si20 }
{
    let field = si20 as u64;
    match op {
        Upper::Lu12iW => word::sign_extend(field * 0x1000, 32),
        Upper::Lu32iD => {
            word::sign_extend(field, 20) % 0x1_0000_0000 * 0x1_0000_0000 + rd % 0x1_0000_0000
        }
        Upper::Pcaddi => word::add_d(pc, word::sign_extend(field * 4, 22)),
        Upper::Pcaddu12i => word::add_d(pc, word::sign_extend(field * 0x1000, 32)),
        Upper::Pcaddu18i => word::add_d(pc, word::sign_extend(field * 0x4_0000, 38)),
        Upper::Pcalau12i => {
            word::add_d(pc, word::sign_extend(field * 0x1000, 32)) / 0x1000 * 0x1000
        }
    }
}

#[tactic(auto, using(crate::proofs::Words::word_scaled, word::proofs::Extends::sext_same), unfolding(crate::specs::Alsl::alsl_of))]
pub fn alsl_value(op: Alsl, rj: u64, rk: u64, sa2: u32) -> u64
    ensures { result ≡ alsl_of op rj rk sa2 }
{
    let sum = word::add_d(rj << (sa2 % 4 + 1), rk);
    match op {
        Alsl::AlslW => word::sign_extend(sum, 32),
        Alsl::AlslWu => word::low_word(sum) as u64,
        Alsl::AlslD => sum,
    }
}
