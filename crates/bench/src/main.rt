// The bench program: code bytes on standard input, and 01's lines on standard output.
#![tactic(auto)]

ghost use Rattle.bench.specs.Bench.{bench_of};
ghost use Rattle.printed.specs.Page.{Prints, Within};

use place::{ArenaOffset, Window};
use session::Session;
use std::io;

// One word more than code may have: input that fills it is too long, however long it is.
const INPUT: usize = 65540;

fn bench(code: &[u8], page: &mut [u8; printed::PAGE]) -> usize
    ensures prints { Prints (bench_of code.now) page.old result page.new }
    ensures within { Within result page.new }
{
    let mut card = [0u8; 64];
    let window = Window {
        start: ArenaOffset(0),
        len: 64,
    };
    let reply = host::run(code, &mut card, window, Session::start(), 1000);
    printed::print(reply, page)
}

fn main(rt: HostRuntime) -> io::Result<()> {
    let mut input = [0u8; INPUT];
    let n = report::read_full(&mut rt.reader(), &mut input)?;
    let mut page = [0u8; printed::PAGE];
    let len = bench(&input[..n], &mut page);
    rt.write_all(&page[..len])
}
