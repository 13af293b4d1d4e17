// The complaint: with a link made up for it, a stranger read somebody's journeys. The old emulator compared an address with the end of
// the arena and not with the end of the account's window.
//
// Seven accounts stand side by side (accounts.rt). The module (module.rt) turns the account number from the link into an address
// and reads there; the window is always that of account 2. For each number this prints what the module got, and what the old rule
// would have let it read. The input has a number a line, 16 hexadecimal digits.
#![tactic(auto)]

mod accounts;
mod line;
mod module;
mod seen;

use place::GuestAddr;
use report::lines::{Line, Lines};
use report::{counts, lines};
use session::{Numbers, Reply, Session};
use std::io;

// The length of a line, with its newline.
const LINE: usize = 17;

// The module has seven instructions.
const BUDGET: u64 = 100;

// Over all numbers: how many there were, bytes of the arena that a run changed, and registers that held bytes from outside the
// window after a run.
#[derive(Clone, Copy, Default)]
struct Tally {
    runs: u64,
    changed: u64,
    foreign: u64,
}

impl Tally {
    fn count(&mut self, arena: &[u8; accounts::LEN], registers: &[u64; 32]) {
        let changed = accounts::changed(arena) as u64;
        let foreign = seen::foreign_registers(arena, registers) as u64;
        counts::count_if(&mut self.runs, true);
        self.changed = self.changed.wrapping_add(changed);
        self.foreign = self.foreign.wrapping_add(foreign);
    }

    fn print(&self, rt: &impl Print) -> io::Result<()> {
        let Tally {
            runs,
            changed,
            foreign,
        } = *self;
        print!(rt; "{runs} runs: {changed} bytes of the arena changed, ")?;
        println!(rt; "{foreign} registers held bytes from outside the window")
    }
}

// A fresh session at the first word, with the number in r4.
fn run(number: u64, code: &[u8], arena: &mut [u8]) -> Reply {
    let mut session = Session::start();
    session.regs[4] = number;
    host::run(code, arena, accounts::own_window(), session, BUDGET)
}

// Prints what came of a number. The address is in r8, and what was read in r5.
fn print_run(rt: &impl Print, number: u64, r: Reply, arena: &[u8]) -> io::Result<()> {
    let Numbers { stop, .. } = Numbers::from(r.outcome);
    let registers = r.session.regs;
    line::print_got(rt, number, registers[8], stop, registers[5])?;
    line::print_old(rt, seen::by_old_rule(arena, registers[8]))
}

// A proved loop has to end, and nothing says that the input does: so no more lines are taken than a number that no run reaches.
fn main(rt: HostRuntime) -> io::Result<()> {
    let code = module::code();
    let mut arena = accounts::ARENA;
    let mut tally = Tally::default();
    for line in Lines::<_, LINE>::new(rt.reader()).take(usize::MAX) {
        let Line::Whole(digits) = line? else {
            lines::print_cut(&rt)?;
            break;
        };
        let number = text::number(&digits, 0, 16);
        let r = run(number, &code, &mut arena);
        print_run(&rt, number, r, &arena)?;
        tally.count(&arena, &r.session.regs);
    }
    tally.print(&rt)
}
