// The exports for C of the crate qhobuziya_host: each calls the function of its name there, under the same clauses. The C interface needs
// both, as a theorem names a function of a library and C a symbol of an archive.
#![tactic(auto)]

ghost use Rattle.qhobuziya_host.specs.Exports.{RunsRecord, AnswersRecord, WritesRecord, ReadsRecord};

use records::{ReadingRecord, ReplyRecord, SessionRecord, WrittenRecord};

#[unsafe(no_mangle)]
pub extern "C" fn qhobuziya_run(
    code: &[u8],
    arena: &mut [u8],
    offset: usize,
    len: usize,
    came: SessionRecord,
    budget: u64,
) -> ReplyRecord
    ensures { RunsRecord code.now offset len came budget arena.old result arena.new }
{
    qhobuziya_host::qhobuziya_run(code, arena, offset, len, came, budget)
}

#[unsafe(no_mangle)]
pub extern "C" fn qhobuziya_answer(code: &[u8], came: SessionRecord, value: u64) -> ReplyRecord
    ensures { AnswersRecord code.now came value result }
{
    qhobuziya_host::qhobuziya_answer(code, came, value)
}

#[unsafe(no_mangle)]
pub extern "C" fn qhobuziya_write(came: SessionRecord, buffer: &mut [u8]) -> WrittenRecord
    ensures { WritesRecord came buffer.old result buffer.new }
{
    qhobuziya_host::qhobuziya_write(came, buffer)
}

#[unsafe(no_mangle)]
pub extern "C" fn qhobuziya_read(file: &[u8]) -> ReadingRecord
    ensures { ReadsRecord file.now result }
{
    qhobuziya_host::qhobuziya_read(file)
}
