// Runs real modules, compiled from modules/ and recorded with an independent emulator (tools/record-modules), and prints for each
// of their runs how many steps it took and whether all agrees. Each module is run in two ways: in one go, and in slices of a few
// steps, with its window at another odd place of a larger arena. The stop, the step count, pc, the total, all registers and every
// byte of the arena, also beside the window, are compared.
//
// A line has 628 bytes, all numbers in hexadecimal. In brackets: where a field begins and how many digits it has.
//     letter [0, 1]: m where a module begins, from a fresh session at the first word; a where the host answers a service call, and
//         the session of the line before goes on
//     name [2, 8] and, by the kind of its file, the window after the run [11, 5]: zones.after. The code and the window before are
//         zones.code and zones.card
//     length of the code [17, 5] and of the window [23, 5], the host's answer [29, 16]
//     after the run: ecode [46, 2], subcode [49, 2], what the stop carries [52, 16], pc [69, 16], steps of the run [86, 5], total
//         [92, 8], registers 1 to 31 [101, 16], each 17 behind the one before
#![tactic(auto)]

mod file;
mod given;
mod way;

use given::{CODE, Given, LINE, WINDOW};
use report::case::Case;
use report::lines;
use report::lines::{Line, Lines};
use session::{Numbers, Reply, Session};
use std::io;
use std::rt::Files;
use way::Way;

// An arena with room beside the largest window in both ways.
const ARENA: usize = 69700;

// A module that is run in one way, from line to line.
#[derive(Drop)]
struct Run {
    way: Way,
    arena: [u8; ARENA],
    session: Session,
}

impl Run {
    fn new(way: Way) -> Run {
        Run {
            way,
            arena: [0; ARENA],
            session: Session::start(),
        }
    }

    // What a line's run starts from: a module that begins, or the session of the line before with the host's answer.
    fn start(&self, given: &Given<'_>, code: &[u8]) -> Session {
        if given.begins {
            Session::start()
        } else {
            service::answer(code, self.session, given.answer).session
        }
    }

    // Where a module begins: fills the arena with the pattern, and the window with the module's card. Says whether the card was
    // there.
    fn fill(&mut self, rt: &impl Files, given: &Given<'_>) -> bool {
        if !given.begins {
            return true;
        }
        report::fill_with(&mut self.arena, report::pattern);
        let rest = self.arena.get_mut(self.way.start..);
        match rest.and_then(|rest| rest.get_mut(..given.window_length)) {
            Some(window) => file::load(rt, given.name, b"card", window),
            None => false,
        }
    }

    // Byte i of the arena after the run: in the window as the file has it, beside it the pattern as before.
    fn wanted_byte(&self, window: &[u8], i: usize) -> u8 {
        let in_window = i.checked_sub(self.way.start);
        match in_window.and_then(|at| window.get(at)) {
            Some(byte) => *byte,
            None => report::pattern(i),
        }
    }

    // Every byte of the arena, outside the window too. The first that differs is printed.
    fn compare_bytes<P: Print>(&self, case: &mut Case<'_, P>, window: &[u8]) -> io::Result<()> {
        for (i, b) in self.arena.iter().enumerate() {
            let wanted = self.wanted_byte(window, i);
            if *b != wanted {
                return case.one_of("arena byte", i, u64::from(*b), u64::from(wanted));
            }
        }
        Ok(())
    }

    // Reads the window as it should be, and compares the arena.
    fn compare_arena<P: Print>(
        &self,
        rt: &impl Files,
        case: &mut Case<'_, P>,
        given: &Given<'_>,
    ) -> io::Result<()> {
        let mut room = [0u8; WINDOW];
        let Some(window) = room.get_mut(..given.window_length) else {
            return tell_file(case, false);
        };
        let whole = file::load(rt, given.name, given.kind_after, window);
        tell_file(case, whole)?;
        self.compare_bytes(case, window)
    }

    // Runs a line, and compares.
    fn hold<P: Print>(
        &mut self,
        rt: &impl Files,
        case: &mut Case<'_, P>,
        given: &Given<'_>,
        code: &[u8],
    ) -> io::Result<Reply> {
        let filled = self.fill(rt, given);
        tell_file(case, filled)?;
        let session = self.start(given, code);
        let way = self.way;
        let reply = way.run(code, &mut self.arena, given.window_length, session);
        self.session = reply.session;
        compare(case, given, reply)?;
        self.compare_arena(rt, case, given)?;
        Ok(reply)
    }
}

// A file that is not there, or has another length than the line says.
fn tell_file<P: Print>(case: &mut Case<'_, P>, whole: bool) -> io::Result<()> {
    if whole {
        Ok(())
    } else {
        case.other("a file is missing, or has another length")
    }
}

// Prints what is not as the line says, but for the arena.
fn compare<P: Print>(case: &mut Case<'_, P>, given: &Given<'_>, r: Reply) -> io::Result<()> {
    let Numbers { refused, stop } = Numbers::from(r.outcome);
    case.decimal("refusal", refused, 0)?;
    case.field("ecode", stop.ecode, 46, 2)?;
    case.field("subcode", stop.subcode, 49, 2)?;
    case.field("carried", stop.carried, 52, 16)?;
    case.decimal("steps", r.steps, given.steps)?;
    case.field("pc", r.session.pc.0, 69, 16)?;
    case.decimal("total", r.session.total, given.total)?;
    case.registers(&r.session.regs, &given.registers)
}

// Runs a line in both ways, and prints what came of it. Where a module begins, its code is read before.
fn hold<R: Files + Print>(
    rt: &R,
    case: &mut Case<'_, R>,
    given: &Given<'_>,
    room: &mut [u8; CODE],
    runs: &mut (Run, Run),
) -> io::Result<()> {
    let Some(code) = room.get_mut(..given.code_length) else {
        return case.no_case();
    };
    let whole = !given.begins || file::load(rt, given.name, b"code", code);
    if !whole {
        return tell_file(case, whole);
    }
    let (in_one_go, in_slices) = runs;
    let reply = in_one_go.hold(rt, case, given, code)?;
    in_slices.hold(rt, case, given, code)?;
    let Numbers { stop, .. } = Numbers::from(reply.outcome);
    given.print_result(rt, reply.steps, stop.carried, case.differs)
}

// A proved loop has to end, and nothing says that the input does: so the lines are numbered up to a number that no run reaches.
fn main(rt: HostRuntime) -> io::Result<()> {
    let mut code = [0u8; CODE];
    let mut runs = (Run::new(Way::IN_ONE_GO), Run::new(Way::IN_SLICES));
    for (number, line) in (1..u64::MAX).zip(Lines::<_, LINE>::new(rt.reader())) {
        let Line::Whole(line) = line? else {
            lines::print_cut(&rt)?;
            break;
        };
        let mut case = Case::new(&rt, number, &line);
        match Given::of(&line) {
            Some(given) => hold(&rt, &mut case, &given, &mut code, &mut runs)?,
            None => case.no_case()?,
        }
    }
    Ok(())
}
