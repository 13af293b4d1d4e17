// Holds the decoder, and the mnemonics of `names`, to a recording of an independent disassembler (tools/record-words), and prints for
// each mnemonic how many words there were and how many of them differ. A line is
//     L 02c01c04 05 01 addi.d       04 00 00 00000007
// where L is what the disassembler prints; N a word that it does not know, or that is no instruction of document 01; H one that
// document 01 says does not exist. Then the word, the numbers of a family and of an operation of it, the mnemonic, and the
// operands, in the order of `numbered`'s record.
#![tactic(auto)]

use numbered::DecodedRecord;
use report::counts;
use report::lines::{Line, Lines};
use report::mnemonics::{Mnemonic, Mnemonics};
use std::io;

// The length of a line, with its newline.
const LINE: usize = 48;

// Where its mnemonic stands, and how many letters there is room for.
const NAME: usize = 17;

const LETTERS: usize = 12;

// The words of the whole input, by the letters of their lines.
#[derive(Clone, Copy, Default)]
struct Totals {
    words: u64,
    printed: u64,
    not_there: u64,
    house: u64,
    differ: u64,
}

impl Totals {
    fn count(&mut self, letter: u8, differs: bool) {
        counts::count_if(&mut self.words, true);
        counts::count_if(&mut self.printed, letter == b'L');
        counts::count_if(&mut self.not_there, letter == b'N');
        counts::count_if(&mut self.house, letter == b'H');
        counts::count_if(&mut self.differ, differs);
    }

    fn print(&self, rt: &impl Print) -> io::Result<()> {
        let Totals {
            words,
            printed,
            not_there,
            house,
            differ,
        } = *self;
        println!(rt; "{words} words: L {printed}, N {not_there}, H {house}, {differ} differ")
    }
}

fn mnemonic_of(line: &[u8]) -> Mnemonic {
    Mnemonic {
        family: text::number(line, 11, 2),
        operation: text::number(line, 14, 2),
    }
}

// The numbers of a line. It counts families from 0, where `numbered` has "no such instruction".
fn record_of(line: &[u8]) -> DecodedRecord {
    let mnemonic = mnemonic_of(line);
    DecodedRecord {
        family: mnemonic.family.wrapping_add(1),
        operation: mnemonic.operation,
        rd: text::number(line, 30, 2),
        rj: text::number(line, 33, 2),
        rk: text::number(line, 36, 2),
        imm: text::number(line, 39, 8),
    }
}

// Whether the instruction's text begins with the line's mnemonic: up to its first blank, and the line has blanks from there on.
fn named(line: &[u8], text: &[u8]) -> bool {
    let mut letters = text.iter().copied().take_while(|b| *b != b' ');
    let wanted = text::part(line, NAME, LETTERS);
    wanted.iter().all(|b| *b == letters.next().unwrap_or(b' '))
}

// Whether the decoder says what the line says. A letter that there is not agrees with nothing.
fn agrees(line: &[u8]) -> bool {
    let letter = text::byte(line, 0);
    let Some(instruction) = decoder::decode(text::half(line, 2)) else {
        return matches!(letter, b'N' | b'H');
    };
    letter == b'L'
        && DecodedRecord::from(instruction) == record_of(line)
        && named(line, names::text(instruction).written())
}

// Counts one line.
fn count_line(
    rt: &impl Print,
    mnemonics: &mut Mnemonics,
    totals: &mut Totals,
    line: &[u8],
) -> io::Result<()> {
    mnemonics.begin(
        rt,
        mnemonic_of(line),
        text::part(line, NAME, LETTERS + 1),
        "words",
    )?;
    let differs = !agrees(line);
    totals.count(text::byte(line, 0), differs);
    mnemonics.count(rt, line, differs)
}

// A proved loop has to end, and nothing says that the input does: so no more lines are taken than a number that no run reaches. Of a
// last line that is cut nothing is said.
fn main(rt: HostRuntime) -> io::Result<()> {
    let mut mnemonics = Mnemonics::default();
    let mut totals = Totals::default();
    for line in Lines::<_, LINE>::new(rt.reader()).take(usize::MAX) {
        let Line::Whole(line) = line? else {
            break;
        };
        count_line(&rt, &mut mnemonics, &mut totals, &line)?;
    }
    mnemonics.end(&rt, "words")?;
    totals.print(&rt)
}
