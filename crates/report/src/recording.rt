// Tallies of a recording: of each group of lines, printed where its lines end, and of the whole input, with the emulator's lines and
// the house's apart. A line begins with its letter [0, 1], Q or H, the number of its group [2, 2] and the group's name [5, 12]; lines
// of one group stand together.
use crate::tally::Tally;
use std::io;

// The length of a group's name.
const NAME: usize = 12;

#[derive(Clone, Copy)]
struct Group {
    number: u64,
    name: [u8; NAME],
    tally: Tally,
}

impl Group {
    // The group of its first line.
    fn of(line: &[u8]) -> Group {
        let name = line.get(5..).and_then(|rest| rest.first_chunk());
        Group {
            number: Group::number(line),
            name: name.copied().unwrap_or([0; NAME]),
            tally: Tally::default(),
        }
    }

    fn number(line: &[u8]) -> u64 {
        text::number(line, 2, 2)
    }
}

// The group that is being read, if there was a line, and the totals.
#[derive(Clone, Copy, Default)]
pub struct Recording {
    group: Option<Group>,
    emulator: Tally,
    house: Tally,
}

impl Recording {
    // Before a line: prints the group that is over with it.
    pub fn begin(&mut self, rt: &impl Print, line: &[u8]) -> io::Result<()> {
        if self.group.map(|group| group.number) == Some(Group::number(line)) {
            return Ok(());
        }
        self.print_group(rt)?;
        self.group = Some(Group::of(line));
        Ok(())
    }

    // Counts a line. A letter that is not Q counts as the house's.
    pub fn count(&mut self, line: &[u8], differs: bool) {
        if let Some(group) = &mut self.group {
            group.tally.count(differs);
        }
        let whole = match text::byte(line, 0) {
            b'Q' => &mut self.emulator,
            _ => &mut self.house,
        };
        whole.count(differs);
    }

    // After the last line: the last group, and the totals.
    pub fn end(&self, rt: &impl Print) -> io::Result<()> {
        self.print_group(rt)?;
        rt.write_all(b"Q ")?;
        self.emulator.print(rt, "cases")?;
        rt.write_all(b"H ")?;
        self.house.print(rt, "cases")
    }

    fn print_group(&self, rt: &impl Print) -> io::Result<()> {
        let Some(group) = self.group else {
            return Ok(());
        };
        rt.write_all(&group.name)?;
        rt.write_all(b" ")?;
        group.tally.print(rt, "cases")
    }
}
