// Results, on standard output.
use crate::system::System;
use session::{Reply, Session};
use std::io;

// The lines of the bench program.
pub fn reply(rt: &impl System, reply: Reply) -> io::Result<()> {
    // The buffer and the length are those of the proved call, which names no memory of its own.
    let mut lines = [0u8; printed::PAGE];
    let n = printed::print(reply, &mut lines);
    rt.write_all(&lines[..n])
}

pub fn answered(rt: &impl System, session: Session) -> io::Result<()> {
    println!(rt; "answered\npc {:016x}", session.pc.0)
}
