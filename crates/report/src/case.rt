// A case of a table or a recording: what it comes to is held to what its line says.
ghost use Rattle.std.specs.Prelude.{◌≡◌, ◌==◌, ◌||◌, not, IsTrue, IsFalse, OnOk};

use std::{fmt, io};

// Where a case prints what is not as its line says, with the line's number in the input; whether the call was refused, and whether
// anything differs.
#[derive(Drop)]
pub struct Case<'a, P> {
    rt: &'a P,
    number: u64,
    line: &'a [u8],
    pub refused: bool,
    pub differs: bool,
}

impl<'a, P: Print> Case<'a, P> {
    pub fn new(rt: &'a P, number: u64, line: &'a [u8]) -> Self
        ensures refused { IsFalse result.refused }
        ensures differs { IsFalse result.differs }
    {
        Case {
            rt,
            number,
            line,
            refused: false,
            differs: false,
        }
    }

    // A line that is no case agrees with nothing.
    pub fn no_case(&mut self) -> io::Result<()>
        ensures { OnOk result (IsTrue self.new.differs) }
    {
        self.other("it is no case")
    }

    // What differs, where it is told in words.
    pub fn other<T: fmt::Display + Drop>(&mut self, what: T) -> io::Result<()>
        ensures { OnOk result (IsTrue self.new.differs) }
    {
        self.differs = true;
        let number = self.number;
        println!(self.rt; "line {number}: {what}")
    }

    // A value in hexadecimal, as a line has it.
    pub fn value(&mut self, what: &str, found: u64, wanted: u64) -> io::Result<()>
        ensures { OnOk result (self.new.differs ≡ (self.old.differs || not (found == wanted))) }
    {
        if found == wanted {
            return Ok(());
        }
        self.differs = true;
        let number = self.number;
        println!(self.rt; "line {number}: {what} is {found:016x}, not {wanted:016x}")
    }

    // The value that the line has in so many digits from a column on.
    pub fn field(
        &mut self,
        what: &str,
        found: u64,
        column: usize,
        digits: usize,
    ) -> io::Result<()> {
        self.value(what, found, text::number(self.line, column, digits))
    }

    // The same for a field that is named by its column.
    pub fn column(&mut self, found: u64, column: usize, digits: usize) -> io::Result<()> {
        self.one_of(
            "column",
            column,
            found,
            text::number(self.line, column, digits),
        )
    }

    // A value of one of many: register 4, arena byte 38.
    pub fn one_of(&mut self, what: &str, which: usize, found: u64, wanted: u64) -> io::Result<()>
        ensures { OnOk result (self.new.differs ≡ (self.old.differs || not (found == wanted))) }
    {
        if found == wanted {
            return Ok(());
        }
        self.differs = true;
        let number = self.number;
        println!(self.rt; "line {number}: {what} {which} is {found:016x}, not {wanted:016x}")
    }

    // The same in decimal, for what document 01 has in decimal.
    pub fn decimal(&mut self, what: &str, found: u64, wanted: u64) -> io::Result<()>
        ensures { OnOk result (self.new.differs ≡ (self.old.differs || not (found == wanted))) }
    {
        if found == wanted {
            return Ok(());
        }
        self.differs = true;
        let number = self.number;
        println!(self.rt; "line {number}: {what} is {found}, not {wanted}")
    }

    pub fn registers(&mut self, found: &[u64; 32], wanted: &[u64; 32]) -> io::Result<()> {
        for (i, (f, w)) in found.iter().zip(wanted).enumerate() {
            self.one_of("register", i, *f, *w)?;
        }
        Ok(())
    }

    // Every byte of a buffer, with what it should be.
    pub fn bytes<F: Fn(usize) -> u8>(
        &mut self,
        what: &str,
        found: &[u8],
        wanted: F,
    ) -> io::Result<()>
        requires { F.IsAlwaysCallable wanted }
    {
        for (i, b) in found.iter().enumerate() {
            let wanted = wanted(i);
            if *b != wanted {
                self.one_of(what, i, u64::from(*b), u64::from(wanted))?;
            }
        }
        Ok(())
    }
}
