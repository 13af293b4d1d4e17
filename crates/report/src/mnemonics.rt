// Tallies of mnemonics, whose lines stand together: a mnemonic's name is printed where its lines begin, its tally where they end.
use crate::tally::Tally;
use std::io;

// A mnemonic by the number of its family and its number there.
#[derive(Clone, Copy, PartialEq, Eq)]
pub struct Mnemonic {
    pub family: u64,
    pub operation: u64,
}

// The mnemonic whose lines are being read, if there was a line.
#[derive(Clone, Copy, Default)]
pub struct Mnemonics {
    now: Option<Mnemonic>,
    tally: Tally,
}

impl Mnemonics {
    // Before a line of this mnemonic and this name. What is counted is called `cases`.
    pub fn begin(
        &mut self,
        rt: &impl Print,
        mnemonic: Mnemonic,
        name: &[u8],
        cases: &str,
    ) -> io::Result<()> {
        if self.now == Some(mnemonic) {
            return Ok(());
        }
        self.end(rt, cases)?;
        *self = Mnemonics {
            now: Some(mnemonic),
            tally: Tally::default(),
        };
        rt.write_all(name)
    }

    // Counts a line. One that differs is printed.
    pub fn count(&mut self, rt: &impl Print, line: &[u8], differs: bool) -> io::Result<()> {
        self.tally.count(differs);
        if differs {
            rt.write_all(b"\n")?;
            rt.write_all(line)?;
        }
        Ok(())
    }

    // After the last line of a mnemonic, and where there is none.
    pub fn end(&self, rt: &impl Print, cases: &str) -> io::Result<()> {
        match self.now {
            Some(_) => self.tally.print(rt, cases),
            None => Ok(()),
        }
    }
}
