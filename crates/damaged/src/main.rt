// Holds the reading and the writing of a paused session to a table of damaged files and short buffers, whose numbers are worked out
// from document 01, and prints how many files were read and how many writes were made, how many of them were refused and how many
// differ. The refusal, the offset or length, the whole session of a read and every byte of a write's buffer, also past the part that
// was lent, are compared.
//
// A line has 80 bytes, all numbers in decimal. In brackets: where a field begins and how many digits it has.
//     call [0, 1]: r is a read, w is a write; form [2, 1]: p is a plain file of 268 bytes, n is one of 285, with a note
//     place, from [4, 3] to [8, 3]; count, from [12, 3] to [16, 3]; value, from [20, 3] to [24, 3]; rest [28, 3]
//     refusal [32, 2], 0 for none; offset of a read or length of a write [35, 3]
//     what the line shows [39, 40]
// A line is many cases: one for each place, count and value in their ranges, the ends among them.
// A read's file is a whole one of the form up to the place, then as many bytes as the count says, the first of which is the value and
// the others 238, then the whole one again from the rest on. So a cut has no count and the rest at the whole file's end; a kind that is
// replaced has count 1 and the rest one past the place; what is put in has the rest at the place.
// A write's place is the length of its buffer; the byte of register 0 that the value names is the count. The rest is 0.
// The kinds of a whole file stand at 0, 9, 258, 267 and, with a note, 284. Every other byte i of it is what `report::pattern` gives:
// (i % 251 * 31 + 7) % 251 + 1.
// What differs is printed with its line's number, `row` below, and then the place, count and value of the case.
#![tactic(auto)]

mod given;
mod made;

use given::{Given, LINE, ROOM};
use made::Damage;
use report::case::Case;
use report::counts::Counts;
use report::lines::{Line, Lines};
use session::{Note, Session};
use std::io;

// A note as numbers: whether there is one, and its two parts.
fn note_parts(note: Option<Note>) -> [u64; 3] {
    match note {
        None => [0; 3],
        Some(Note { low, high }) => [1, low, high],
    }
}

fn compare_session<P: Print>(
    case: &mut Case<'_, P>,
    found: Session,
    wanted: Session,
) -> io::Result<()> {
    case.registers(&found.regs, &wanted.regs)?;
    case.value("pc", found.pc.0, wanted.pc.0)?;
    case.value("total", found.total, wanted.total)?;
    let parts = note_parts(found.note);
    for (i, (f, w)) in parts.iter().zip(note_parts(wanted.note)).enumerate() {
        case.one_of("note, part", i, *f, w)?;
    }
    Ok(())
}

// The refusal's number, 0 for none, and the offset or the length.
fn compare_numbers<P: Print>(
    case: &mut Case<'_, P>,
    given: &Given,
    refusal: u64,
    what: &str,
    offset: usize,
) -> io::Result<()> {
    case.refused = refusal != 0;
    case.decimal("refusal", refusal, given.refusal)?;
    case.decimal(what, offset as u64, given.offset as u64)
}

fn read<P: Print>(case: &mut Case<'_, P>, given: &Given, file: &[u8]) -> io::Result<()> {
    let read = reader::read(file);
    let wanted = match given.refusal {
        0 => made::session(file, 0),
        _ => made::nothing(),
    };
    let offset = file::offset_read(read);
    compare_numbers(case, given, file::number_read(read), "offset", offset)?;
    compare_session(case, file::session_read(read), wanted)
}

// Every byte of the buffer is compared, also past the part that the call was lent.
fn write<P: Print>(
    case: &mut Case<'_, P>,
    given: &Given,
    damage: Damage,
    buffer: &mut [u8; ROOM],
) -> io::Result<()> {
    report::fill_with(buffer, made::buffer_byte);
    let Some(lent) = buffer.get_mut(..damage.place) else {
        return case.no_case();
    };
    let written = writer::write(damage.session(), lent);
    let length = file::length_written(written);
    compare_numbers(case, given, refuse::number(written), "length", length)?;
    case.bytes("buffer byte", buffer, |i| {
        made::written_byte(given.has_note, given.offset, i)
    })
}

fn hold<P: Print>(case: &mut Case<'_, P>, given: &Given, damage: Damage) -> io::Result<()> {
    let mut room = [0u8; ROOM];
    if given.is_write {
        write(case, given, damage, &mut room)?;
    } else {
        report::fill_with(&mut room, |i| damage.file_byte(i));
        match room.get(..damage.length()) {
            Some(file) => read(case, given, file)?,
            None => case.no_case()?,
        }
    }
    if case.differs {
        case.other(format_args!("so it is with {damage}"))?;
    }
    Ok(())
}

// Holds each case of a line. What differs is printed with the line's number, and then the place, count and value of the case.
fn hold_all(
    rt: &impl Print,
    row: u64,
    line: &[u8],
    given: &Given,
    counts: &mut Counts,
) -> io::Result<()> {
    let Given {
        places,
        counts: sizes,
        values,
        ..
    } = *given;
    for place in places.first..=places.last {
        for count in sizes.first..=sizes.last {
            for value in values.first..=values.last {
                let mut case = Case::new(rt, row, line);
                hold(&mut case, given, given.damage(place, count, value))?;
                counts.count(&case);
            }
        }
    }
    Ok(())
}

fn count_line(rt: &impl Print, row: u64, line: &[u8], counts: &mut Counts) -> io::Result<()> {
    if let Some(given) = Given::of(line) {
        return hold_all(rt, row, line, &given, counts);
    }
    let mut case = Case::new(rt, row, line);
    case.no_case()?;
    counts.count(&case);
    Ok(())
}

// A proved loop has to end, and nothing says that the input does: so the lines are numbered up to a number that no run reaches. A last
// line that is cut has no newline, so it is no case.
fn main(rt: HostRuntime) -> io::Result<()> {
    let mut reads = Counts::default();
    let mut writes = Counts::default();
    for (row, line) in (1..u64::MAX).zip(Lines::<_, LINE>::new(rt.reader())) {
        let (Line::Whole(line) | Line::Cut(line)) = line?;
        let counts = if given::is_write(&line) {
            &mut writes
        } else {
            &mut reads
        };
        count_line(&rt, row, &line, counts)?;
    }
    reads.print(&rt, "read:", "files")?;
    writes.print(&rt, "write:", "calls")
}
