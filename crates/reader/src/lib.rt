// Reading a paused session: one kind a function, each of which takes the cursor on. A refusal ends the reading.

#![tactic(auto)]

ghost use Rattle.std.specs.Prelude.{◌≡◌, ◌∷◌, ◌+◌, ◌≤◌, length, IfOk};
ghost use Rattle.file.specs.Format.{numbers_at, pc_row, registers_row, total_row, note_row, end_row};
ghost use Rattle.file.specs.Promises.{Reads};
ghost use Rattle.file.specs.Reading.{refused, due_of, stands, Takes, ended_of, parsed_of};

use file::{Cursor, FileRefusal, Reading};
use place::GuestAddr;
use session::{Note, Refusal, Session};

fn refused<T>(refusal: Refusal, offset: usize) -> Result<T, FileRefusal>
    ensures { result ≡ refused refusal offset }
{
    Err(FileRefusal { refusal, offset })
}

// A kind that is due, with a body of n bytes: on to the body.
#[tactic(auto, unfolding(file::specs::Reading::due_of))]
fn due(file: &[u8], at: usize, kind: u8, n: usize) -> Result<usize, FileRefusal>
    ensures body { result ≡ due_of kind n file.now at }
    ensures inside { IfOk result (λ body. body + n ≤ length file.now) }
{
    let Some(found) = file.get(at) else {
        return refused(Refusal::FileCut, file.len());
    };
    if *found != kind {
        return refused(Refusal::FileKind, at);
    }
    if file.len() - at - 1 < n {
        return refused(Refusal::FileCut, at);
    }
    Ok(at + 1)
}

// This and the next ones differ in their length and their field: one function over a closure that sets the field would be no shorter.
// The cursor goes on in its place: handed on by value, each kind would copy the whole session.
fn take_pc(file: &[u8], c: &mut Cursor) -> Result<(), FileRefusal>
    ensures { Takes pc_row file.now c.old result c.new }
{
    let body = due(file, c.at, 0x01, 8)?;
    c.session.pc = GuestAddr(byte_order::get::<8>(file, body));
    c.at = body + 8;
    Ok(())
}

// By index: tried with `iter_mut().enumerate()`, the proof does not close, since the check then knows nothing of the array.
fn registers(file: &[u8], at: usize) -> [u64; 32]
    requires { at + 248 ≤ length file.now }
    ensures { result ≡ 0 ∷ numbers_at 31 at file.now }
{
    let mut regs = [0; 32];
    for i in 0..31 {
        regs[i + 1] = byte_order::get::<8>(file, at + 8 * i);
    }
    regs
}

fn take_registers(file: &[u8], c: &mut Cursor) -> Result<(), FileRefusal>
    ensures { Takes registers_row file.now c.old result c.new }
{
    let body = due(file, c.at, 0x02, 248)?;
    c.session.regs = registers(file, body);
    c.at = body + 248;
    Ok(())
}

fn take_total(file: &[u8], c: &mut Cursor) -> Result<(), FileRefusal>
    ensures { Takes total_row file.now c.old result c.new }
{
    let body = due(file, c.at, 0x03, 8)?;
    c.session.total = byte_order::get::<8>(file, body);
    c.at = body + 8;
    Ok(())
}

#[tactic(auto, unfolding(file::specs::Reading::stands))]
fn is_kind(file: &[u8], at: usize, kind: u8) -> bool
    ensures { result ≡ stands kind file.now at }
{
    file.get(at) == Some(&kind)
}

fn take_note(file: &[u8], c: &mut Cursor) -> Result<(), FileRefusal>
    ensures { Takes note_row file.now c.old result c.new }
{
    if !is_kind(file, c.at, 0x04) {
        return Ok(());
    }
    let body = due(file, c.at, 0x04, 16)?;
    c.session.note = Some(Note {
        low: byte_order::get::<8>(file, body),
        high: byte_order::get::<8>(file, body + 8),
    });
    c.at = body + 16;
    Ok(())
}

fn take_end(file: &[u8], c: &mut Cursor) -> Result<(), FileRefusal>
    ensures { Takes end_row file.now c.old result c.new }
{
    c.at = due(file, c.at, 0x05, 0)?;
    Ok(())
}

#[tactic(auto, unfolding(file::specs::Reading::parsed_of))]
fn parse(file: &[u8]) -> Result<Cursor, FileRefusal>
    ensures { result ≡ parsed_of file.now }
{
    let mut c = Cursor {
        at: 0,
        session: Session::fresh(),
    };
    take_pc(file, &mut c)?;
    take_registers(file, &mut c)?;
    take_total(file, &mut c)?;
    take_note(file, &mut c)?;
    take_end(file, &mut c)?;
    Ok(c)
}

// Nothing may stand behind the end mark.
#[tactic(auto, unfolding(file::specs::Reading::ended_of))]
fn ended(file: &[u8], c: Cursor) -> Result<Reading, FileRefusal>
    ensures { result ≡ ended_of file.now c }
{
    if c.at < file.len() {
        return refused(Refusal::FileExtra, c.at);
    }
    Ok(Reading {
        session: c.session,
        offset: c.at,
    })
}

pub fn read(file: &[u8]) -> Result<Reading, FileRefusal>
    ensures { Reads file.now result }
{
    let end = parse(file)?;
    ended(file, end)
}
