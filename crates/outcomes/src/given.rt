// What a line gives: an outcome, and the reply that has it.
use fault::Fault;
use place::GuestAddr;
use session::{Note, Outcome, Refusal, Reply, Session, Stop};

// The length of a line, with its newline.
pub const LINE: usize = 98;

// 01's table of stops, by Ecode and subcode.
fn raised(line: &[u8]) -> Option<Fault> {
    let value = text::number(line, 7, 16);
    let low = text::half(line, 15);
    match (
        text::decimal(line, 2, 2) % 100,
        text::decimal(line, 5, 1) % 10,
    ) {
        (8, 0) => Some(Fault::Adef(GuestAddr(value))),
        (8, 1) => Some(Fault::Adem(GuestAddr(value))),
        (9, 0) => Some(Fault::Ale(GuestAddr(value))),
        (10, 0) => Some(Fault::Bce),
        (11, 0) => Some(Fault::Syscall(low)),
        (12, 0) => Some(Fault::Break(low)),
        (13, 0) => Some(Fault::Ine(low)),
        _ => None,
    }
}

// 01's table of refusals.
fn refusal(line: &[u8]) -> Option<Refusal> {
    match text::decimal(line, 2, 2) {
        1 => Some(Refusal::CodeLength),
        2 => Some(Refusal::WindowLength),
        3 => Some(Refusal::WindowPlace),
        4 => Some(Refusal::ZeroRegister),
        5 => Some(Refusal::Budget),
        6 => Some(Refusal::Total),
        7 => Some(Refusal::NoSyscall),
        11 => Some(Refusal::FileKind),
        12 => Some(Refusal::FileCut),
        13 => Some(Refusal::FileExtra),
        14 => Some(Refusal::BufferLength),
        _ => None,
    }
}

// Nothing where the line is no case.
fn outcome(line: &[u8]) -> Option<Outcome> {
    match text::byte(line, 0) {
        b's' => raised(line).map(|fault| Outcome::Stopped(Stop::Raised(fault))),
        b'b' => Some(Outcome::Stopped(Stop::Spent)),
        b'r' => refusal(line).map(Outcome::Refused),
        b'a' => Some(Outcome::Answered),
        _ => None,
    }
}

// Register 0 stays zero: a line that names no register writes 0 there.
fn registers(line: &[u8]) -> [u64; 32] {
    let mut registers = [0u64; 32];
    let first = text::decimal(line, 58, 2) % 32;
    let second = text::decimal(line, 78, 2) % 32;
    registers[first as usize] = text::number(line, 61, 16);
    registers[second as usize] = text::number(line, 81, 16);
    registers
}

pub fn reply(line: &[u8]) -> Option<Reply> {
    Some(Reply {
        outcome: outcome(line)?,
        steps: text::number(line, 24, 16),
        session: Session {
            regs: registers(line),
            pc: GuestAddr(text::number(line, 41, 16)),
            total: 99,
            note: Some(Note { low: 1, high: 2 }),
        },
    })
}
