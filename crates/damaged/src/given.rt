// What a line gives: the call, the range of each number that it is made with, and what must come of it.
ghost use Rattle.std.specs.Prelude.{◌<◌};

use crate::made;
use crate::made::Damage;

// The length of a line, with its newline.
pub const LINE: usize = 80;

// The longest file that a line makes, and the buffer of a write: more than two whole files.
pub const ROOM: usize = 600;

// What may stand in a column: the call, the form, blanks between the fields, what the line shows, the newline, and else digits.
fn fits(column: usize, b: u8) -> bool {
    match column {
        0 => matches!(b, b'r' | b'w'),
        2 => matches!(b, b'p' | b'n'),
        1 | 3 | 7 | 11 | 15 | 19 | 23 | 27 | 31 | 34 | 38 => b == b' ',
        39..=78 => text::is_printable(b),
        79 => b == b'\n',
        _ => b.is_ascii_digit(),
    }
}

// A line that does not begin as a write counts as a read.
pub fn is_write(line: &[u8]) -> bool {
    text::byte(line, 0) == b'w'
}

// A number of three digits. The remainder tells the prover so.
fn three(line: &[u8], at: usize) -> usize
    ensures { result < 1000 }
{
    (text::decimal(line, at, 3) % 1000) as usize
}

// A range of numbers, with its ends.
#[derive(Clone, Copy)]
pub struct Range {
    pub first: usize,
    pub last: usize,
    ghost ends: { last < 1000 },
}

impl Range {
    // No range is empty: a line that makes nothing would show nothing.
    fn is_within(&self, most: usize) -> bool {
        self.first <= self.last && self.last <= most
    }
}

#[derive(Clone, Copy)]
pub struct Given {
    pub is_write: bool,
    pub has_note: bool,
    pub places: Range,
    pub counts: Range,
    pub values: Range,
    pub rest: usize,
    // What must come of each call: the refusal's number, and the offset of a read or the length of a write.
    pub refusal: u64,
    pub offset: usize,
}

impl Given {
    // Nothing where the line is none.
    pub fn of(line: &[u8]) -> Option<Given> {
        let given = Given {
            is_write: is_write(line),
            has_note: text::byte(line, 2) == b'n',
            places: Range {
                first: three(line, 4),
                last: three(line, 8),
            },
            counts: Range {
                first: three(line, 12),
                last: three(line, 16),
            },
            values: Range {
                first: three(line, 20),
                last: three(line, 24),
            },
            rest: three(line, 28),
            refusal: text::decimal(line, 32, 2),
            offset: three(line, 35),
        };
        let makes_some = if given.is_write {
            given.makes_buffers()
        } else {
            given.makes_files()
        };
        (text::has_columns(line, fits) && makes_some).then_some(given)
    }

    // A case of the line.
    pub fn damage(&self, place: usize, count: usize, value: usize) -> Damage {
        Damage {
            note: self.has_note,
            place,
            count,
            value,
            rest: self.rest,
        }
    }

    // A read's last file is its longest.
    fn makes_files(&self) -> bool {
        let whole = made::whole(self.has_note);
        let last = self.damage(self.places.last, self.counts.last, self.values.last);
        let ranges = self.places.is_within(whole) && self.counts.is_within(ROOM);
        ranges && self.values.is_within(255) && self.rest <= whole && last.length() <= ROOM
    }

    fn makes_buffers(&self) -> bool {
        let ranges = self.places.is_within(ROOM) && self.counts.is_within(255);
        ranges && self.values.is_within(7) && self.rest == 0
    }
}
