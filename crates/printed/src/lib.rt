// What the bench program prints of a reply, as bytes on a page that the caller lends.

#![tactic(auto)]

ghost use Rattle.std.specs.Prelude.{◌≡◌, ◌<◌};
ghost use Rattle.page.specs.Page.{Room, Puts};
ghost use Rattle.printed.specs.Digits.{glyph_of, digits, decimal};
ghost use Rattle.printed.specs.Lines.{counted, valued, numbers_line, stop_line, count_line, register_line, register_lines, state_lines, outcome_lines};
ghost use Rattle.printed.specs.Page.{Prints, Within};

use fault::Telling;
use page::Page;
use session::{Outcome, Reply, Session, Stop};

// Room for the longest text: a stop, steps, pc and 32 registers have fewer than 800 bytes.
pub const PAGE: usize = 1024;

// Digits by hand: the kit's formatting may fail, and its clauses say what was written on `Ok` alone. `print` cannot fail (its clause
// `prints`).
fn glyph(d: u64) -> u8
    requires { d < 16 }
    ensures { result ≡ glyph_of d }
{
    if d < 10 { 48 + d as u8 } else { 87 + d as u8 }
}

// The digits before the last, if there are any, and the last.
fn put_decimal(page: &mut Page, n: u64)
    requires { Room (decimal n) page.old }
    ensures { Puts (decimal n) page.old page.new }
{
    if n >= 10 {
        put_decimal(page, n / 10);
    }
    page.put(&[glyph(n % 10)]);
}

// The last k hex digits.
#[tactic(auto, unfolding(crate::specs::Digits::digits))]
fn put_hex(page: &mut Page, k: usize, n: u64)
    requires { Room (digits 16 k n) page.old }
    ensures { Puts (digits 16 k n) page.old page.new }
{
    if k > 0 {
        put_hex(page, k - 1, n / 16);
        page.put(&[glyph(n % 16)]);
    }
}

#[tactic(auto, unfolding(crate::specs::Lines::counted))]
fn put_counted(page: &mut Page, word: &[u8], n: u64)
    requires { Room (counted word.now n) page.old }
    ensures { Puts (counted word.now n) page.old page.new }
{
    page.put(word);
    put_decimal(page, n);
}

#[tactic(auto, unfolding(crate::specs::Lines::valued))]
fn put_valued(page: &mut Page, word: &[u8], value: u64)
    requires { Room (valued word.now value) page.old }
    ensures { Puts (valued word.now value) page.old page.new }
{
    page.put(word);
    put_hex(page, 16, value);
    page.put(b"\n");
}

#[tactic(auto, unfolding(crate::specs::Lines::count_line))]
fn put_count(page: &mut Page, word: &[u8], n: u64)
    requires { Room (count_line word.now n) page.old }
    ensures { Puts (count_line word.now n) page.old page.new }
{
    put_counted(page, word, n);
    page.put(b"\n");
}

#[tactic(auto, unfolding(crate::specs::Lines::numbers_line))]
fn put_numbers(page: &mut Page, told: Telling)
    requires { Room (numbers_line told) page.old }
    ensures { Puts (numbers_line told) page.old page.new }
{
    put_counted(page, b"stop ", told.ecode);
    put_counted(page, b" ", told.subcode);
    put_valued(page, b" ", told.carried);
}

#[tactic(auto, unfolding(crate::specs::Lines::stop_line))]
fn put_stop(page: &mut Page, stop: Stop)
    requires { Room (stop_line stop) page.old }
    ensures { Puts (stop_line stop) page.old page.new }
{
    match stop {
        Stop::Raised(f) => put_numbers(page, Telling::from(f)),
        Stop::Spent => page.put(b"stop budget\n"),
    }
}

#[tactic(auto, unfolding(crate::specs::Lines::register_line))]
fn put_register(page: &mut Page, i: u64, value: u64)
    requires { Room (register_line i value) page.old }
    ensures { Puts (register_line i value) page.old page.new }
{
    if value != 0 {
        put_counted(page, b"r", i);
        put_valued(page, b" ", value);
    }
}

fn put_registers(page: &mut Page, regs: &[u64; 32])
    requires { Room (register_lines 0 regs.now) page.old }
    ensures { Puts (register_lines 0 regs.now) page.old page.new }
{
    for (i, value) in regs.iter().enumerate() {
        put_register(page, i as u64, *value);
    }
}

fn put_state(page: &mut Page, steps: u64, session: Session)
    requires { Room (state_lines steps session) page.old }
    ensures { Puts (state_lines steps session) page.old page.new }
{
    put_count(page, b"steps ", steps);
    put_valued(page, b"pc ", session.pc.0);
    put_registers(page, &session.regs);
}

fn put_outcome(page: &mut Page, outcome: Outcome, steps: u64, session: Session)
    requires { Room (outcome_lines outcome steps session) page.old }
    ensures { Puts (outcome_lines outcome steps session) page.old page.new }
{
    match outcome {
        Outcome::Stopped(stop) => {
            put_stop(page, stop);
            put_state(page, steps, session);
        }
        Outcome::Answered => {
            page.put(b"answered\n");
            put_state(page, steps, session);
        }
        Outcome::Refused(refusal) => put_count(page, b"refused ", u64::from(refusal)),
    }
}

// Puts what 01 says at the front of the page, and returns its length.
pub fn print(reply: Reply, page: &mut [u8; PAGE]) -> usize
    ensures prints { Prints reply page.old result page.new }
    ensures within { Within result page.new }
{
    let mut page = Page { bytes: page, at: 0 };
    put_outcome(&mut page, reply.outcome, reply.steps, reply.session);
    page.at
}
