// Holds the host's call run to whole programs that an independent emulator ran (tools/record-programs), and prints for each kind of stop
// how many cases there were and how many of them differ. The stop, the step count, the whole session and every byte of the arena's
// buffer, also past the arena that was lent, are compared.
//
// A line has 2155 bytes, all numbers in hexadecimal. In brackets: where a field begins and how many digits it has.
//     letter [0, 1]: Q is what the emulator did, H where document 01 decides how it stops; kind of stop [2, 2] and its name [5, 12]
//     before: length of the code [18, 5]; words of it: their offset [24, 5], how many [30, 2] and the words [33, 512]; pc [546, 16],
//         total [563, 16], budget [580, 5], r1 to r31 [586, 496], length of the window [1083, 5]
//     after: bytes of the window: their offset [1089, 5] and how many [1095, 3]; ecode [1099, 2], subcode [1102, 2] and what the stop
//         carries [1105, 16], zeros where the budget is spent; steps [1122, 5], pc [1128, 16], r1 to r31 [1145, 496]; the bytes of the
//         window in the order of memory [1642, 512]
// All else is a pattern that `given` makes, and must not change, but that the total grows by the steps.
#![tactic(auto)]

mod given;

use given::{CODE, Given, LINE};
use place::{ArenaOffset, Window};
use report::case::Case;
use report::lines;
use report::lines::{Line, Lines};
use report::recording::Recording;
use session::{Numbers, Reply, Session};
use std::io;

// An arena with room around the largest window.
const ARENA: usize = 65602;

fn compare_session<P: Print>(
    case: &mut Case<'_, P>,
    given: &Given<'_>,
    found: Session,
) -> io::Result<()> {
    case.registers(&found.regs, &given.registers_after)?;
    case.field("pc", found.pc.0, 1128, 16)?;
    case.value("total", found.total, given.total_after)?;
    // 1 where there is a note.
    case.value("note", u64::from(found.note.is_some()), 0)
}

// Prints what is not as the line says.
fn compare<P: Print>(
    case: &mut Case<'_, P>,
    given: &Given<'_>,
    r: Reply,
    arena: &[u8],
) -> io::Result<()> {
    let Numbers { refused, stop } = Numbers::from(r.outcome);
    case.value("refusal", refused, 0)?;
    case.field("ecode", stop.ecode, 1099, 2)?;
    case.field("subcode", stop.subcode, 1102, 2)?;
    case.field("carried", stop.carried, 1105, 16)?;
    case.value("steps", r.steps, given.steps)?;
    compare_session(case, given, r.session)?;
    // Every byte of the buffer, outside the window too.
    case.bytes("arena byte", arena, |i| given.arena_after.byte(i))
}

// Runs a line's program in as much code as the line says, and in a window of the arena, of which it lends as much as the line needs.
// Nothing where that is more than there is.
fn run(given: &Given<'_>, code: &[u8; CODE], arena: &mut [u8; ARENA]) -> Option<Reply> {
    let window = Window {
        start: ArenaOffset(given::START),
        len: given.window_length,
    };
    let end = given::START + given.window_length + given::AFTER;
    let lent = arena.get_mut(..end)?;
    Some(host::run(
        &code[..given.code_length],
        lent,
        window,
        given.session,
        given.budget,
    ))
}

// Runs a line's program with the words in their place, and compares. The words are taken back in any case: they may lie at an offset
// that is no multiple of 4.
fn hold<P: Print>(
    case: &mut Case<'_, P>,
    given: &Given<'_>,
    code: &mut [u8; CODE],
    arena: &mut [u8; ARENA],
) -> io::Result<()> {
    report::fill_with(arena, report::pattern);
    given.put_words(code);
    let reply = run(given, code, arena);
    given.take_words(code);
    match reply {
        Some(reply) => compare(case, given, reply, arena),
        None => case.no_case(),
    }
}

// A proved loop has to end, and nothing says that the input does: so the lines are numbered up to a number that no run reaches.
fn main(rt: HostRuntime) -> io::Result<()> {
    let mut code = [0u8; CODE];
    let mut arena = [0u8; ARENA];
    given::fill_code(&mut code);
    let mut recording = Recording::default();
    for (number, line) in (1..u64::MAX).zip(Lines::<_, LINE>::new(rt.reader())) {
        let Line::Whole(line) = line? else {
            lines::print_cut(&rt)?;
            break;
        };
        recording.begin(&rt, &line)?;
        let mut case = Case::new(&rt, number, &line);
        match Given::of(&line) {
            Some(given) => hold(&mut case, &given, &mut code, &mut arena)?,
            None => case.no_case()?,
        }
        recording.count(&line, case.differs);
    }
    recording.end(&rt)
}
