// The two lines that are printed for a number from the link.
use fault::Telling;
use std::io;

// Eight bytes as the text that they are.
fn print_text(rt: &impl Print, v: u64) -> io::Result<()> {
    rt.write_all(b"\"")?;
    rt.write_all(&v.to_le_bytes())?;
    rt.write_all(b"\"\n")
}

// ADEM is 8, 1. The register that the load would have written was 0 before the run.
fn print_refused(rt: &impl Print, stop: Telling, got: u64) -> io::Result<()> {
    let Telling {
        ecode,
        subcode,
        carried,
    } = stop;
    match (ecode, subcode, got) {
        (8, 1, 0) => println!(rt; "ADEM at {carried:016x}, nothing read"),
        (8, 1, _) => println!(rt; "ADEM at {carried:016x}, and yet the register has {got:016x}"),
        _ => println!(rt; "stop {ecode} {subcode} {carried:016x}"),
    }
}

// The number, the address that the module asked for, and what it got. SYSCALL is 11: the module came to its end.
pub fn print_got(
    rt: &impl Print,
    number: u64,
    address: u64,
    stop: Telling,
    got: u64,
) -> io::Result<()> {
    print!(rt; "account {number:016x}, address {address:016x}: ")?;
    if stop.ecode == 11 {
        rt.write_all(b"read ")?;
        print_text(rt, got)
    } else {
        print_refused(rt, stop, got)
    }
}

pub fn print_old(rt: &impl Print, read: Option<u64>) -> io::Result<()> {
    rt.write_all(b"    the old emulator would have read: ")?;
    match read {
        Some(v) => print_text(rt, v),
        None => println!(rt; "nothing"),
    }
}
