// A decoded word as plain numbers: family, operation and operands. For callers that have no enums.

#![tactic(auto)]

ghost use Rattle.std.specs.Prelude.{◌≡◌};
ghost use Rattle.numbered.specs.Numbered.{plain_of, field_of, hint_of, instruction_numbers, numbered_of};

use isa::{FieldOperands, HintOperands, Instruction, Operands};

// The record that crosses to C: numbers only. Family 0 is "no such instruction".
#[repr(C)]
#[derive(Clone, Copy, PartialEq, Eq, Default)]
pub struct DecodedRecord {
    pub family: u64,
    pub operation: u64,
    pub rd: u64,
    pub rj: u64,
    pub rk: u64,
    pub imm: u64,
}

// Three functions, one for each struct of operands: a trait over the three is no plainer, since it would have these bodies in its impls.
fn plain(family: u64, operation: u64, o: Operands) -> DecodedRecord
    ensures { result ≡ plain_of family operation o }
{
    DecodedRecord {
        family: family,
        operation: operation,
        rd: o.rd as u64,
        rj: o.rj as u64,
        rk: o.rk as u64,
        imm: o.imm as u64,
    }
}

fn field(family: u64, operation: u64, o: FieldOperands) -> DecodedRecord
    ensures { result ≡ field_of family operation o }
{
    DecodedRecord {
        family: family,
        operation: operation,
        rd: o.rd as u64,
        rj: o.rj as u64,
        rk: o.lsb as u64,
        imm: o.msb as u64,
    }
}

fn hint(family: u64, operation: u64, o: HintOperands) -> DecodedRecord
    ensures { result ≡ hint_of family operation o }
{
    DecodedRecord {
        family: family,
        operation: operation,
        rd: o.hint as u64,
        rj: o.rj as u64,
        rk: o.rk as u64,
        imm: o.imm as u64,
    }
}

impl From<Instruction> for DecodedRecord {
    ghost from_gives = { λ i r. r ≡ instruction_numbers i };

    fn from(i: Instruction) -> DecodedRecord {
        match i {
            Instruction::Alu(op, o) => plain(1, op as u64, o),
            Instruction::Product(op, o) => plain(2, op as u64, o),
            Instruction::Division(op, o) => plain(3, op as u64, o),
            Instruction::Shift(op, o) => plain(4, op as u64, o),
            Instruction::ShiftImmediate(op, o) => plain(5, op as u64, o),
            Instruction::Immediate(op, o) => plain(6, op as u64, o),
            Instruction::Upper(op, o) => plain(7, op as u64, o),
            Instruction::Alsl(op, o) => plain(8, op as u64, o),
            Instruction::Bytepick(op, o) => plain(9, op as u64, o),
            Instruction::Unary(op, o) => plain(10, op as u64, o),
            Instruction::Field(op, o) => field(11, op as u64, o),
            Instruction::Branch(op, o) => plain(12, op as u64, o),
            Instruction::ZeroBranch(op, o) => plain(13, op as u64, o),
            Instruction::Jump(op, o) => plain(14, op as u64, o),
            Instruction::Load(op, o) => plain(15, op as u64, o),
            Instruction::LoadIndexed(op, o) => plain(16, op as u64, o),
            Instruction::Store(op, o) => plain(17, op as u64, o),
            Instruction::StoreIndexed(op, o) => plain(18, op as u64, o),
            Instruction::Pointer(op, o) => plain(19, op as u64, o),
            Instruction::Preload(op, o) => hint(20, op as u64, o),
            Instruction::Barrier(op, o) => plain(21, op as u64, o),
            Instruction::Trap(op, o) => plain(22, op as u64, o),
            Instruction::Assert(op, o) => plain(23, op as u64, o),
            Instruction::Config(_, o) => plain(24, 0, o),
        }
    }
}

// The numbers of what decoding gave.
impl From<Option<Instruction>> for DecodedRecord {
    ghost from_gives = { λ d r. r ≡ numbered_of d };

    fn from(d: Option<Instruction>) -> DecodedRecord {
        match d {
            Some(i) => DecodedRecord::from(i),
            None => DecodedRecord::default(),
        }
    }
}
