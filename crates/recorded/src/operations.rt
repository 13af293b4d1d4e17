// The operations of each family, in the order of their numbers.
use alu::{Alsl, Alu, Immediate, Upper};
use digits::Unary;
use fields::{Bytepick, Field};
use product::Product;
use quotient::Division;
use shift::Shift;

pub static ALU: [Alu; 14] = [
    Alu::AddW,
    Alu::AddD,
    Alu::SubW,
    Alu::SubD,
    Alu::Slt,
    Alu::Sltu,
    Alu::And,
    Alu::Or,
    Alu::Nor,
    Alu::Xor,
    Alu::Andn,
    Alu::Orn,
    Alu::Maskeqz,
    Alu::Masknez,
];

pub static IMMEDIATE: [Immediate; 9] = [
    Immediate::AddiW,
    Immediate::AddiD,
    Immediate::Addu16iD,
    Immediate::Slti,
    Immediate::Sltui,
    Immediate::Lu52iD,
    Immediate::Andi,
    Immediate::Ori,
    Immediate::Xori,
];

pub static UPPER: [Upper; 6] = [
    Upper::Lu12iW,
    Upper::Lu32iD,
    Upper::Pcaddi,
    Upper::Pcaddu12i,
    Upper::Pcaddu18i,
    Upper::Pcalau12i,
];

pub static ALSL: [Alsl; 3] = [Alsl::AlslW, Alsl::AlslWu, Alsl::AlslD];

pub static PRODUCT: [Product; 8] = [
    Product::MulW,
    Product::MulD,
    Product::MulhW,
    Product::MulhWu,
    Product::MulhD,
    Product::MulhDu,
    Product::MulwDW,
    Product::MulwDWu,
];

pub static DIVISION: [Division; 8] = [
    Division::DivW,
    Division::ModW,
    Division::DivWu,
    Division::ModWu,
    Division::DivD,
    Division::ModD,
    Division::DivDu,
    Division::ModDu,
];

pub static SHIFT: [Shift; 8] = [
    Shift::SllW,
    Shift::SrlW,
    Shift::SraW,
    Shift::RotrW,
    Shift::SllD,
    Shift::SrlD,
    Shift::SraD,
    Shift::RotrD,
];

pub static UNARY: [Unary; 20] = [
    Unary::ExtWB,
    Unary::ExtWH,
    Unary::CloW,
    Unary::CloD,
    Unary::ClzW,
    Unary::ClzD,
    Unary::CtoW,
    Unary::CtoD,
    Unary::CtzW,
    Unary::CtzD,
    Unary::Revb2h,
    Unary::Revb4h,
    Unary::Revb2w,
    Unary::RevbD,
    Unary::Revh2w,
    Unary::RevhD,
    Unary::Bitrev4b,
    Unary::Bitrev8b,
    Unary::BitrevW,
    Unary::BitrevD,
];

pub static BYTEPICK: [Bytepick; 2] = [Bytepick::BytepickW, Bytepick::BytepickD];

pub static FIELD: [Field; 4] = [
    Field::BstrinsW,
    Field::BstrinsD,
    Field::BstrpickW,
    Field::BstrpickD,
];
