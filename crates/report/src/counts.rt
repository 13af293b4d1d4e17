// Counts of the cases of one call. They stay far below 2^64, so none wraps.
ghost use Rattle.std.specs.Prelude.{◌≡◌, ◌+◌, ◌%◌, ◌^◌, cond};

use crate::case::Case;
use std::io;

// One more where the condition holds.
pub fn count_if(count: &mut u64, yes: bool)
    ensures { count.new ≡ cond yes ((count.old + 1) % 2 ^ 64) count.old }
{
    if yes {
        *count = count.wrapping_add(1);
    }
}

#[derive(Clone, Copy, Default)]
pub struct Counts {
    pub cases: u64,
    pub refused: u64,
    pub differ: u64,
}

impl Counts {
    pub fn count<P>(&mut self, case: &Case<'_, P>) {
        count_if(&mut self.cases, true);
        count_if(&mut self.refused, case.refused);
        count_if(&mut self.differ, case.differs);
    }

    // As `run 104 cases, 56 refused, 0 differ`.
    pub fn print(&self, rt: &impl Print, call: &str, cases: &str) -> io::Result<()> {
        let Counts {
            cases: n,
            refused,
            differ,
        } = *self;
        println!(rt; "{call} {n} {cases}, {refused} refused, {differ} differ")
    }
}
