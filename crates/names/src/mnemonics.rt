// The mnemonics, a table for each family. A trait over the families is no plainer: Shift, Load and Store have two tables each.
use alu::{Alsl, Alu, Immediate, Upper};
use digits::Unary;
use fields::{Bytepick, Field};
use isa::{Assert, Barrier, Branch, Jump, Load, Pointer, Store, Trap, ZeroBranch};
use product::Product;
use quotient::Division;
use shift::Shift;

pub fn alu(op: Alu) -> &'static str {
    match op {
        Alu::AddW => "add.w",
        Alu::AddD => "add.d",
        Alu::SubW => "sub.w",
        Alu::SubD => "sub.d",
        Alu::Slt => "slt",
        Alu::Sltu => "sltu",
        Alu::And => "and",
        Alu::Or => "or",
        Alu::Nor => "nor",
        Alu::Xor => "xor",
        Alu::Andn => "andn",
        Alu::Orn => "orn",
        Alu::Maskeqz => "maskeqz",
        Alu::Masknez => "masknez",
    }
}

pub fn product(op: Product) -> &'static str {
    match op {
        Product::MulW => "mul.w",
        Product::MulD => "mul.d",
        Product::MulhW => "mulh.w",
        Product::MulhWu => "mulh.wu",
        Product::MulhD => "mulh.d",
        Product::MulhDu => "mulh.du",
        Product::MulwDW => "mulw.d.w",
        Product::MulwDWu => "mulw.d.wu",
    }
}

pub fn division(op: Division) -> &'static str {
    match op {
        Division::DivW => "div.w",
        Division::ModW => "mod.w",
        Division::DivWu => "div.wu",
        Division::ModWu => "mod.wu",
        Division::DivD => "div.d",
        Division::ModD => "mod.d",
        Division::DivDu => "div.du",
        Division::ModDu => "mod.du",
    }
}

pub fn shift(op: Shift) -> &'static str {
    match op {
        Shift::SllW => "sll.w",
        Shift::SrlW => "srl.w",
        Shift::SraW => "sra.w",
        Shift::RotrW => "rotr.w",
        Shift::SllD => "sll.d",
        Shift::SrlD => "srl.d",
        Shift::SraD => "sra.d",
        Shift::RotrD => "rotr.d",
    }
}

// The same shifts by a number.
pub fn shift_immediate(op: Shift) -> &'static str {
    match op {
        Shift::SllW => "slli.w",
        Shift::SrlW => "srli.w",
        Shift::SraW => "srai.w",
        Shift::RotrW => "rotri.w",
        Shift::SllD => "slli.d",
        Shift::SrlD => "srli.d",
        Shift::SraD => "srai.d",
        Shift::RotrD => "rotri.d",
    }
}

pub fn immediate(op: Immediate) -> &'static str {
    match op {
        Immediate::AddiW => "addi.w",
        Immediate::AddiD => "addi.d",
        Immediate::Addu16iD => "addu16i.d",
        Immediate::Slti => "slti",
        Immediate::Sltui => "sltui",
        Immediate::Lu52iD => "lu52i.d",
        Immediate::Andi => "andi",
        Immediate::Ori => "ori",
        Immediate::Xori => "xori",
    }
}

pub fn upper(op: Upper) -> &'static str {
    match op {
        Upper::Lu12iW => "lu12i.w",
        Upper::Lu32iD => "lu32i.d",
        Upper::Pcaddi => "pcaddi",
        Upper::Pcaddu12i => "pcaddu12i",
        Upper::Pcaddu18i => "pcaddu18i",
        Upper::Pcalau12i => "pcalau12i",
    }
}

pub fn alsl(op: Alsl) -> &'static str {
    match op {
        Alsl::AlslW => "alsl.w",
        Alsl::AlslWu => "alsl.wu",
        Alsl::AlslD => "alsl.d",
    }
}

pub fn bytepick(op: Bytepick) -> &'static str {
    match op {
        Bytepick::BytepickW => "bytepick.w",
        Bytepick::BytepickD => "bytepick.d",
    }
}

pub fn unary(op: Unary) -> &'static str {
    match op {
        Unary::ExtWB => "ext.w.b",
        Unary::ExtWH => "ext.w.h",
        Unary::CloW => "clo.w",
        Unary::CloD => "clo.d",
        Unary::ClzW => "clz.w",
        Unary::ClzD => "clz.d",
        Unary::CtoW => "cto.w",
        Unary::CtoD => "cto.d",
        Unary::CtzW => "ctz.w",
        Unary::CtzD => "ctz.d",
        Unary::Revb2h => "revb.2h",
        Unary::Revb4h => "revb.4h",
        Unary::Revb2w => "revb.2w",
        Unary::RevbD => "revb.d",
        Unary::Revh2w => "revh.2w",
        Unary::RevhD => "revh.d",
        Unary::Bitrev4b => "bitrev.4b",
        Unary::Bitrev8b => "bitrev.8b",
        Unary::BitrevW => "bitrev.w",
        Unary::BitrevD => "bitrev.d",
    }
}

pub fn field(op: Field) -> &'static str {
    match op {
        Field::BstrinsW => "bstrins.w",
        Field::BstrinsD => "bstrins.d",
        Field::BstrpickW => "bstrpick.w",
        Field::BstrpickD => "bstrpick.d",
    }
}

pub fn branch(op: Branch) -> &'static str {
    match op {
        Branch::Beq => "beq",
        Branch::Bne => "bne",
        Branch::Blt => "blt",
        Branch::Bge => "bge",
        Branch::Bltu => "bltu",
        Branch::Bgeu => "bgeu",
    }
}

pub fn zero_branch(op: ZeroBranch) -> &'static str {
    match op {
        ZeroBranch::Beqz => "beqz",
        ZeroBranch::Bnez => "bnez",
    }
}

pub fn jump(op: Jump) -> &'static str {
    match op {
        Jump::B => "b",
        Jump::Bl => "bl",
        Jump::Jirl => "jirl",
    }
}

pub fn load(op: Load) -> &'static str {
    match op {
        Load::LdB => "ld.b",
        Load::LdH => "ld.h",
        Load::LdW => "ld.w",
        Load::LdD => "ld.d",
        Load::LdBu => "ld.bu",
        Load::LdHu => "ld.hu",
        Load::LdWu => "ld.wu",
    }
}

// The same loads from a sum of two registers.
pub fn load_indexed(op: Load) -> &'static str {
    match op {
        Load::LdB => "ldx.b",
        Load::LdH => "ldx.h",
        Load::LdW => "ldx.w",
        Load::LdD => "ldx.d",
        Load::LdBu => "ldx.bu",
        Load::LdHu => "ldx.hu",
        Load::LdWu => "ldx.wu",
    }
}

pub fn store(op: Store) -> &'static str {
    match op {
        Store::StB => "st.b",
        Store::StH => "st.h",
        Store::StW => "st.w",
        Store::StD => "st.d",
    }
}

// The same stores to a sum of two registers.
pub fn store_indexed(op: Store) -> &'static str {
    match op {
        Store::StB => "stx.b",
        Store::StH => "stx.h",
        Store::StW => "stx.w",
        Store::StD => "stx.d",
    }
}

pub fn pointer(op: Pointer) -> &'static str {
    match op {
        Pointer::LdptrW => "ldptr.w",
        Pointer::LdptrD => "ldptr.d",
        Pointer::StptrW => "stptr.w",
        Pointer::StptrD => "stptr.d",
    }
}

pub fn barrier(op: Barrier) -> &'static str {
    match op {
        Barrier::Dbar => "dbar",
        Barrier::Ibar => "ibar",
    }
}

pub fn trap(op: Trap) -> &'static str {
    match op {
        Trap::Syscall => "syscall",
        Trap::Break => "break",
    }
}

pub fn assertion(op: Assert) -> &'static str {
    match op {
        Assert::AsrtleD => "asrtle.d",
        Assert::AsrtgtD => "asrtgt.d",
    }
}
