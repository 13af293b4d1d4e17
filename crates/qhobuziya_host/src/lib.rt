// The calls that C and Rust servers link: each unpacks its records, calls the proved core, and packs what that returns. A prefix, since a
// name is the whole program's, as in C. Decoding is in an archive of its own: a second caller of the decoder in this one would keep it out
// of the run's loop.

#![tactic(auto)]

ghost use Rattle.qhobuziya_host.specs.Exports.{RunsRecord, AnswersRecord, WritesRecord, ReadsRecord};

use place::{ArenaOffset, Window};
use records::{ReadingRecord, ReplyRecord, SessionRecord, WrittenRecord};
use session::Session;

// The C interface: the window goes as its two numbers.
pub fn qhobuziya_run(
    code: &[u8],
    arena: &mut [u8],
    offset: usize,
    len: usize,
    came: SessionRecord,
    budget: u64,
) -> ReplyRecord
    ensures { RunsRecord code.now offset len came budget arena.old result arena.new }
{
    let window = Window {
        start: ArenaOffset(offset),
        len,
    };
    let reply = host::run(code, arena, window, Session::from(came), budget);
    records::replied(came, reply)
}

pub fn qhobuziya_answer(code: &[u8], came: SessionRecord, value: u64) -> ReplyRecord
    ensures { AnswersRecord code.now came value result }
{
    let reply = service::answer(code, Session::from(came), value);
    records::replied(came, reply)
}

pub fn qhobuziya_write(came: SessionRecord, buffer: &mut [u8]) -> WrittenRecord
    ensures { WritesRecord came buffer.old result buffer.new }
{
    WrittenRecord::from(writer::write(Session::from(came), buffer))
}

pub fn qhobuziya_read(file: &[u8]) -> ReadingRecord
    ensures { ReadsRecord file.now result }
{
    ReadingRecord::from(reader::read(file))
}
