// The host's call that runs a session. All tests come first; then the loop.

#![tactic(auto)]

ghost use Rattle.std.specs.Prelude.{◌+◌, ◌^◌, ◌≤◌};
ghost use Rattle.place.specs.Place.{InArena};
ghost use Rattle.apply.specs.Machine.{ground_on};
ghost use Rattle.running.specs.Run.{ran_of, Leaves};
ghost use Rattle.running.specs.Call.{Runs};

use place::Window;
use session::{Outcome, Reply, Session, Stop};

// The loop. The registers are one local array; the copy that each turn begins with is what a raising instruction leaves.
fn loop_on(code: &[u8], arena: &mut [u8], window: Window, session: Session, budget: u64) -> Reply
    requires { InArena window arena.old × (session.total + budget ≤ 2 ^ 63) }
    ensures { Leaves result arena.new (ran_of (ground_on code.now window) session budget arena.old) }
{
    let mut regs = session.regs;
    let mut pc = session.pc;
    for steps in 0..budget {
        let old = regs;
        match cpu::turn(code, arena, window, &mut regs, pc) {
            Ok(next) => pc = next,
            Err(fault) => {
                return Reply {
                    outcome: Outcome::Stopped(Stop::Raised(fault)),
                    steps,
                    session: Session {
                        regs: old,
                        pc,
                        total: session.total + steps,
                        note: session.note,
                    },
                };
            }
        }
    }
    Reply {
        outcome: Outcome::Stopped(Stop::Spent),
        steps: budget,
        session: Session {
            regs,
            pc,
            total: session.total + budget,
            note: session.note,
        },
    }
}

// Runs the session in the window of the arena, for at most `budget` steps.
pub fn run(code: &[u8], arena: &mut [u8], window: Window, session: Session, budget: u64) -> Reply
    ensures { Runs (ground_on code.now window) session budget arena.old result arena.new }
{
    match refuse::of_run(code.len(), arena.len(), window, session, budget) {
        Ok(()) => loop_on(code, arena, window, session, budget),
        Err(refusal) => Reply {
            outcome: Outcome::Refused(refusal),
            steps: 0,
            session,
        },
    }
}
