// A decoded instruction as text: its mnemonic, then its operands in the manual's order, as `addi.d r4, r0, 7`. A number is the
// field's own value, and signed where the manual sign-extends it: `beq r4, r5, -3` goes three words back.
#![tactic(auto)]

mod mnemonics;

ghost use Rattle.std.specs.Prelude.{◌≡◌, take};

use alu::Immediate;
use isa::{Config, FieldOperands, HintOperands, Instruction, Jump, Operands, Preload};
use std::fmt;
use std::fmt::Write;

// How many values the signed fields have: si12, si14, offs16 and si16, si20, offs21, offs26.
const SI12: u32 = 0x1000;

const SI14: u32 = 0x4000;

const SI16: u32 = 0x1_0000;

const SI20: u32 = 0x10_0000;

const OFFS21: u32 = 0x20_0000;

const OFFS26: u32 = 0x400_0000;

// The number that a field stands for: the upper half of its values stands for the numbers below 0.
fn signed(field: u32, values: u32) -> i64 {
    if field < values / 2 {
        i64::from(field)
    } else {
        i64::from(field) - i64::from(values)
    }
}

// rd, rj
fn pair<W: fmt::Write>(f: &mut fmt::Formatter<W>, name: &str, o: Operands) -> fmt::Result {
    write!(f, "{name} r{}, r{}", o.rd, o.rj)
}

// rd, rj, rk
fn triple<W: fmt::Write>(f: &mut fmt::Formatter<W>, name: &str, o: Operands) -> fmt::Result {
    write!(f, "{name} r{}, r{}, r{}", o.rd, o.rj, o.rk)
}

// rd, rj, rk, a number that is not signed
fn picked<W: fmt::Write>(f: &mut fmt::Formatter<W>, name: &str, o: Operands) -> fmt::Result {
    write!(f, "{name} r{}, r{}, r{}, {}", o.rd, o.rj, o.rk, o.imm)
}

// rd, rj, a number
fn numbered<W: fmt::Write>(
    f: &mut fmt::Formatter<W>,
    name: &str,
    o: Operands,
    number: i64,
) -> fmt::Result {
    write!(f, "{name} r{}, r{}, {number}", o.rd, o.rj)
}

// ANDI, ORI and XORI take their number as it is.
fn immediate(op: Immediate, field: u32) -> i64 {
    match op {
        Immediate::Andi | Immediate::Ori | Immediate::Xori => i64::from(field),
        Immediate::Addu16iD => signed(field, SI16),
        _ => signed(field, SI12),
    }
}

// rd, rj, msb, lsb
fn field<W: fmt::Write>(f: &mut fmt::Formatter<W>, name: &str, o: FieldOperands) -> fmt::Result {
    write!(f, "{name} r{}, r{}, {}, {}", o.rd, o.rj, o.msb, o.lsb)
}

// rj, rd, offs16
fn branch<W: fmt::Write>(f: &mut fmt::Formatter<W>, name: &str, o: Operands) -> fmt::Result {
    write!(f, "{name} r{}, r{}, {}", o.rj, o.rd, signed(o.imm, SI16))
}

// B and BL have an offset alone.
fn jump<W: fmt::Write>(f: &mut fmt::Formatter<W>, op: Jump, o: Operands) -> fmt::Result {
    let name = mnemonics::jump(op);
    match op {
        Jump::Jirl => numbered(f, name, o, signed(o.imm, SI16)),
        Jump::B | Jump::Bl => write!(f, "{name} {}", signed(o.imm, OFFS26)),
    }
}

// hint, rj, and an offset or a register
fn preload<W: fmt::Write>(f: &mut fmt::Formatter<W>, op: Preload, o: HintOperands) -> fmt::Result {
    match op {
        Preload::Preld => write!(f, "preld {}, r{}, {}", o.hint, o.rj, signed(o.imm, SI12)),
        Preload::Preldx => write!(f, "preldx {}, r{}, r{}", o.hint, o.rj, o.rk),
    }
}

// An instruction that is shown as text.
#[derive(Clone, Copy)]
pub struct Shown(pub Instruction);

impl fmt::Display for Shown {
    fn fmt<W: fmt::Write>(&self, f: &mut fmt::Formatter<W>) -> fmt::Result {
        match self.0 {
            Instruction::Alu(op, o) => triple(f, mnemonics::alu(op), o),
            Instruction::Product(op, o) => triple(f, mnemonics::product(op), o),
            Instruction::Division(op, o) => triple(f, mnemonics::division(op), o),
            Instruction::Shift(op, o) => triple(f, mnemonics::shift(op), o),
            Instruction::ShiftImmediate(op, o) => {
                numbered(f, mnemonics::shift_immediate(op), o, i64::from(o.imm))
            }
            Instruction::Immediate(op, o) => {
                numbered(f, mnemonics::immediate(op), o, immediate(op, o.imm))
            }
            Instruction::Upper(op, o) => {
                write!(
                    f,
                    "{} r{}, {}",
                    mnemonics::upper(op),
                    o.rd,
                    signed(o.imm, SI20)
                )
            }
            Instruction::Alsl(op, o) => picked(f, mnemonics::alsl(op), o),
            Instruction::Bytepick(op, o) => picked(f, mnemonics::bytepick(op), o),
            Instruction::Unary(op, o) => pair(f, mnemonics::unary(op), o),
            Instruction::Field(op, o) => field(f, mnemonics::field(op), o),
            Instruction::Branch(op, o) => branch(f, mnemonics::branch(op), o),
            Instruction::ZeroBranch(op, o) => {
                write!(
                    f,
                    "{} r{}, {}",
                    mnemonics::zero_branch(op),
                    o.rj,
                    signed(o.imm, OFFS21)
                )
            }
            Instruction::Jump(op, o) => jump(f, op, o),
            Instruction::Load(op, o) => { numbered(f, mnemonics::load(op), o, signed(o.imm, SI12)) }
            Instruction::LoadIndexed(op, o) => triple(f, mnemonics::load_indexed(op), o),
            Instruction::Store(op, o) => {
                numbered(f, mnemonics::store(op), o, signed(o.imm, SI12))
            }
            Instruction::StoreIndexed(op, o) => triple(f, mnemonics::store_indexed(op), o),
            Instruction::Pointer(op, o) => {
                numbered(f, mnemonics::pointer(op), o, signed(o.imm, SI14))
            }
            Instruction::Preload(op, o) => preload(f, op, o),
            Instruction::Barrier(op, o) => write!(f, "{} {}", mnemonics::barrier(op), o.imm),
            Instruction::Trap(op, o) => write!(f, "{} {}", mnemonics::trap(op), o.imm),
            Instruction::Assert(op, o) => {
                write!(f, "{} r{}, r{}", mnemonics::assertion(op), o.rj, o.rk)
            }
            Instruction::Config(Config::Cpucfg, o) => pair(f, "cpucfg", o),
        }
    }
}

// A line with room for the text of any instruction.
#[derive(Clone, Copy)]
pub struct Line {
    pub bytes: [u8; 128],
    pub len: usize,
}

impl Line {
    pub fn empty() -> Line {
        Line {
            bytes: [0; 128],
            len: 0,
        }
    }

    // The bytes that were written.
    pub fn written(&self) -> &[u8]
        ensures { result.now ≡ take self.now.len self.now.bytes }
    {
        self.bytes.get(..self.len).unwrap_or(&self.bytes)
    }
}

impl fmt::Write for Line {
    // What there is no room for is left out.
    fn write_str(&mut self, text: &str) -> fmt::Result {
        let room = self.bytes.get_mut(self.len..).unwrap_or(&mut []);
        let taken = text.len().min(room.len());
        room[..taken].copy_from_slice(&text.as_bytes()[..taken]);
        self.len += taken;
        Ok(())
    }
}

// The text of an instruction. It cannot fail and asks for no memory.
pub fn text(i: Instruction) -> Line {
    let mut line = Line::empty();
    let _ = write!(line, "{}", Shown(i));
    line
}
