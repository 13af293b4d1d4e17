// What a paused session holds.
use crate::failure::Failure;
use crate::load;
use crate::system::System;
use session::Session;
use std::io;

// The note's bytes stand in the file's order, the lowest of each half first.
fn print_note(rt: &impl System, session: &Session) -> io::Result<()> {
    match session.note {
        None => println!(rt; "note absent"),
        Some(note) => {
            println!(rt;
                "note {:016x}{:016x}",
                note.low.swap_bytes(),
                note.high.swap_bytes()
            )
        }
    }
}

fn print(rt: &impl System, session: &Session) -> io::Result<()> {
    println!(rt; "pc {:016x}", session.pc.0)?;
    println!(rt; "total {}", session.total)?;
    print_note(rt, session)?;
    for (i, value) in session.regs.iter().enumerate() {
        if *value != 0 {
            println!(rt; "r{i} {value:016x}")?;
        }
    }
    Ok(())
}

pub fn show<'a>(rt: &impl System, path: &'a [u8]) -> Result<(), Failure<'a>> {
    let session = load::paused(rt, path)?;
    print(rt, &session)?;
    Ok(())
}
