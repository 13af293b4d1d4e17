// Writing a paused session: one kind a function, each of which puts its part on the page.

#![tactic(auto)]

ghost use Rattle.std.specs.Prelude.{◌≡◌, ◌∷◌, ◌≤◌, length};
ghost use Rattle.std.proofs.lemmas.List.Edits.{sets};
ghost use Rattle.byte_order.specs.Bytes.{bytes_le};
ghost use Rattle.refuse.specs.Refusals.{verdict_of};
ghost use Rattle.page.specs.Page.{Room, Puts};
ghost use Rattle.file.specs.Format.{registers_row, note_row};
ghost use Rattle.file.specs.Promises.{Writes};
ghost use Rattle.file.specs.Writing.{part_bytes, file_of, buffer_due, write_tests};

use page::Page;
use session::{Refusal, Session};

fn put_word(page: &mut Page, value: u64)
    requires { Room (bytes_le 8 value) page.old }
    ensures { Puts (bytes_le 8 value) page.old page.new }
{
    page.put(&value.to_le_bytes());
}

// The pc and the total: a kind and a number.
fn put_number(page: &mut Page, kind: u8, value: u64)
    requires { Room (kind ∷ bytes_le 8 value) page.old }
    ensures { Puts (kind ∷ bytes_le 8 value) page.old page.new }
{
    page.put(&[kind]);
    put_word(page, value);
}

fn put_registers(page: &mut Page, session: Session)
    requires { Room (part_bytes registers_row session) page.old }
    ensures { Puts (part_bytes registers_row session) page.old page.new }
{
    page.put(&[0x02]);
    for value in &session.regs[1..] {
        put_word(page, *value);
    }
}

fn put_note(page: &mut Page, session: Session)
    requires { Room (part_bytes note_row session) page.old }
    ensures { Puts (part_bytes note_row session) page.old page.new }
{
    if let Some(note) = session.note {
        put_number(page, 0x04, note.low);
        put_word(page, note.high);
    }
}

fn put_parts(page: &mut Page, session: Session)
    requires { Room (file_of session) page.old }
    ensures { Puts (file_of session) page.old page.new }
{
    put_number(page, 0x01, session.pc.0);
    put_registers(page, session);
    put_number(page, 0x03, session.total);
    put_note(page, session);
    page.put(&[0x05]);
}

fn put_file(buffer: &mut [u8], session: Session) -> usize
    requires { length (file_of session) ≤ length buffer.old }
    ensures { (result ≡ length (file_of session)) × (buffer.new ≡ sets buffer.old 0 (file_of session)) }
{
    let mut page = Page {
        bytes: buffer,
        at: 0,
    };
    put_parts(&mut page, session);
    page.at
}

fn buffer_due(session: Session, room: usize) -> bool
    ensures { result ≡ buffer_due session room }
{
    match session.note {
        None => room < 268,
        Some(_) => room < 285,
    }
}

fn judge(session: Session, room: usize) -> Result<(), Refusal>
    ensures { result ≡ verdict_of (write_tests session room) }
{
    if refuse::zero_due(session) {
        return Err(Refusal::ZeroRegister);
    }
    if buffer_due(session, room) {
        return Err(Refusal::BufferLength);
    }
    Ok(())
}

// Returns the file's length. Nothing is written before both tests are made.
pub fn write(session: Session, buffer: &mut [u8]) -> Result<usize, Refusal>
    ensures { Writes session buffer.old result buffer.new }
{
    judge(session, buffer.len())?;
    Ok(put_file(buffer, session))
}
