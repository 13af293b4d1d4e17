// Prints what `printed::print` makes of outcomes, one after another. The outcomes are the lines of the input; what has to be printed was
// typed from document 01's rules. Each page is filled before, and what changed past the text is counted.
//
// A line has 98 bytes. In brackets: where a field begins and how many digits it has; numbers in hexadecimal but for those marked d.
//     kind [0, 1]: s is a stop, b a spent budget, r a refusal, a an answer; Ecode of the stop or number of the refusal [2, 2, d], subcode
//         [5, 1, d], what the stop carries [7, 16]; steps [24, 16], pc [41, 16]
//     two registers, 0 for none: number [58, 2, d] and value [61, 16], number [78, 2, d] and value [81, 16]
#![tactic(auto)]

mod given;

use printed::PAGE;
use report::lines;
use report::lines::{Line, Lines};
use report::tally::Tally;
use std::io;

// Whether a byte of the page past the text is another one than before.
fn changed(page: &[u8; PAGE], len: usize) -> bool {
    let mut past = page.iter().enumerate().skip(len);
    past.any(|(i, b)| *b != report::pattern(i))
}

// Prints a line's outcome, and says whether the rest of the page changed.
fn print_case(rt: &impl Print, line: &[u8]) -> io::Result<bool> {
    let Some(reply) = given::reply(line) else {
        println!(rt; "it is no case")?;
        return Ok(true);
    };
    let mut page = [0u8; PAGE];
    report::fill_with(&mut page, report::pattern);
    let len = printed::print(reply, &mut page);
    rt.write_all(&page[..len])?;
    Ok(changed(&page, len))
}

fn print_totals(rt: &impl Print, pages: Tally) -> io::Result<()> {
    let Tally { cases, differ } = pages;
    println!(rt; "{cases} outcomes, {differ} pages with a byte changed past the text")
}

// A proved loop has to end, and nothing says that the input does: so the lines are numbered up to a number that no run reaches.
fn main(rt: HostRuntime) -> io::Result<()> {
    let mut pages = Tally::default();
    for (number, line) in (1..u64::MAX).zip(Lines::<_, { given::LINE }>::new(rt.reader())) {
        let Line::Whole(line) = line? else {
            lines::print_cut(&rt)?;
            break;
        };
        println!(rt; "case {number}")?;
        pages.count(print_case(&rt, &line)?);
    }
    print_totals(&rt, pages)
}
