// How many cases there were, and how many of them differ. The counts stay far below 2^64, so none wraps.
ghost use Rattle.std.specs.Prelude.{◌≡◌, ◌+◌, ◌%◌, ◌^◌, cond};

use crate::counts;
use std::io;

#[derive(Clone, Copy, Default)]
pub struct Tally {
    pub cases: u64,
    pub differ: u64,
}

impl Tally {
    pub fn count(&mut self, differs: bool)
        ensures cases { self.new.cases ≡ (self.old.cases + 1) % 2 ^ 64 }
        ensures differ { self.new.differ ≡ cond differs ((self.old.differ + 1) % 2 ^ 64) self.old.differ }
    {
        counts::count_if(&mut self.cases, true);
        counts::count_if(&mut self.differ, differs);
    }

    // As `12 cases, 0 differ`.
    pub fn print(&self, rt: &impl Print, cases: &str) -> io::Result<()> {
        let Tally { cases: n, differ } = *self;
        println!(rt; "{n} {cases}, {differ} differ")
    }
}
