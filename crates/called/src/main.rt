// Holds the host's two calls, run and answer, to cases worked out from document 01, and prints for each call how many cases there
// were, how many of them were refused and how many differ. The outcome's numbers, the step count, the whole session and every byte of
// the arena's buffer, also past the arena that was lent, are compared.
//
// A line has 231 bytes, all numbers in hexadecimal. In brackets: where a field begins and how many digits it has.
//     call [0, 1]: r is a run, a is an answer
//     before: the word that fills the code [2, 8], length of the code [11, 5], length of the arena [17, 5], start [23, 16] and length
//         [40, 16] of the window, register 0 [57, 16], pc [74, 16], total [91, 16], the run's budget or the answer's value [108, 16]
//     after: refusal [125, 1], 0 for none; ecode [127, 2], subcode [130, 2] and what the stop carries [133, 16], zeros where there is
//         none; step count [150, 5], pc [156, 16], total [173, 16]
//     what the case shows [190, 40]
// A field that differs is printed by the column where it begins.
// All else is a pattern that `given` and `report` make, and must not change, but that an accepted answer puts its value in register 4.
#![tactic(auto)]

mod given;

use given::{ARENA, CODE, Given, LINE, NOTE};
use report::case::Case;
use report::counts::Counts;
use report::lines;
use report::lines::{Line, Lines};
use session::{Note, Numbers, Reply, Session};
use std::io;

// Makes a line's call.
fn reply(given: &Given, code: &[u8], arena: &mut [u8]) -> Reply {
    if given.is_answer {
        service::answer(code, given.session, given.number)
    } else {
        host::run(code, arena, given.window, given.session, given.number)
    }
}

// Part 0 says whether there is a note.
fn compare_note<P: Print>(case: &mut Case<'_, P>, found: Option<Note>) -> io::Result<()> {
    let Some(note) = found else {
        return case.one_of("note, part", 0, 0, 1);
    };
    case.one_of("note, part", 1, note.low, NOTE.low)?;
    case.one_of("note, part", 2, note.high, NOTE.high)
}

fn compare_session<P: Print>(
    case: &mut Case<'_, P>,
    found: Session,
    registers: &[u64; 32],
) -> io::Result<()> {
    case.registers(&found.regs, registers)?;
    case.column(found.pc.0, 156, 16)?;
    case.column(found.total, 173, 16)?;
    compare_note(case, found.note)
}

// Prints what is not as the line says, but for the arena.
fn compare<P: Print>(case: &mut Case<'_, P>, given: &Given, r: Reply) -> io::Result<()> {
    let Numbers { refused, stop } = Numbers::from(r.outcome);
    case.refused = refused != 0;
    case.column(refused, 125, 1)?;
    case.column(stop.ecode, 127, 2)?;
    case.column(stop.subcode, 130, 2)?;
    case.column(stop.carried, 133, 16)?;
    case.column(r.steps, 150, 5)?;
    compare_session(case, r.session, &given.registers_after)
}

// Gives a line's call as much code and arena as the line says, and compares. Every byte of the arena's buffer has to be as before,
// also past the arena that the call was lent.
fn hold<P: Print>(
    case: &mut Case<'_, P>,
    given: &Given,
    code: &mut [u8; CODE],
    arena: &mut [u8; ARENA],
) -> io::Result<()> {
    let word = given.word.to_le_bytes();
    let lent = &mut code[..given.code_length];
    report::fill_with(lent, |i| word[i % 4]);
    report::fill_with(arena, report::pattern);
    let r = reply(given, lent, &mut arena[..given.arena_length]);
    case.bytes("arena byte", arena, report::pattern)?;
    compare(case, given, r)
}

// A proved loop has to end, and nothing says that the input does: so the lines are numbered up to a number that no run reaches.
fn main(rt: HostRuntime) -> io::Result<()> {
    let mut code = [0u8; CODE];
    let mut arena = [0u8; ARENA];
    let mut runs = Counts::default();
    let mut answers = Counts::default();
    for (number, line) in (1..u64::MAX).zip(Lines::<_, LINE>::new(rt.reader())) {
        let Line::Whole(line) = line? else {
            lines::print_cut(&rt)?;
            break;
        };
        let mut case = Case::new(&rt, number, &line);
        match Given::of(&line) {
            Some(given) => hold(&mut case, &given, &mut code, &mut arena)?,
            None => case.no_case()?,
        }
        let counts = if given::is_answer(&line) {
            &mut answers
        } else {
            &mut runs
        };
        counts.count(&case);
    }
    runs.print(&rt, "run", "cases")?;
    answers.print(&rt, "answer", "cases")
}
