// How a module is run. Each one is run in two ways, and both must come to the same.
use place::{ArenaOffset, Window};
use session::{Outcome, Reply, Session, Stop};

// Where the window starts in the arena, how many steps a run is given, and how many runs there may be up to a service call.
#[derive(Clone, Copy)]
pub struct Way {
    pub start: usize,
    pub slice: u64,
    pub runs: u64,
}

impl Way {
    pub const IN_ONE_GO: Way = Way {
        start: 4099,
        slice: Session::BUDGET,
        runs: 1,
    };

    // As a server shares its time.
    pub const IN_SLICES: Way = Way {
        start: 37,
        slice: 1999,
        runs: 1000,
    };

    // Runs a session until it stops, as often as the way allows. The steps of all its runs count.
    pub fn run(&self, code: &[u8], arena: &mut [u8], len: usize, session: Session) -> Reply {
        let window = Window {
            start: ArenaOffset(self.start),
            len,
        };
        let mut reply = Reply {
            outcome: Outcome::Stopped(Stop::Spent),
            steps: 0,
            session,
        };
        for _ in 0..self.runs {
            let run = host::run(code, arena, window, reply.session, self.slice);
            reply = Reply {
                steps: reply.steps.wrapping_add(run.steps),
                ..run
            };
            if !matches!(reply.outcome, Outcome::Stopped(Stop::Spent)) {
                break;
            }
        }
        reply
    }
}
