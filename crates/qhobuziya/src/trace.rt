// A run step by step, a line for each: the pc, the word, the instruction, what changed. Each step is a run with budget 1.
use crate::call::Options;
use crate::decode::Word;
use crate::failure::Failure;
use crate::inputs::Inputs;
use crate::out;
use crate::system::System;
use effect::Effect;
use names::Line;
use place::GuestAddr;
use session::{Outcome, Reply, Session, Stop};
use std::fmt;
use std::fmt::Write;

// Where a store goes, and how many bytes it takes.
#[derive(Clone, Copy)]
struct Store {
    at: GuestAddr,
    len: u64,
}

impl Store {
    // The store that a session is about to make with a word.
    fn next(session: &Session, word: u32) -> Option<Store> {
        let instruction = decoder::decode(word)?;
        match ask::ask(instruction, &session.regs, session.pc) {
            Effect::Store(width, _, at) => Some(Store {
                at,
                len: width.bytes(),
            }),
            _ => None,
        }
    }

    // The bytes there, in their order. The card is the window, so an offset in the window is an index.
    fn bytes(self, card: &[u8]) -> Option<&[u8]> {
        let first = self.at.0.checked_sub(GuestAddr::WINDOW)?;
        let end = first.checked_add(self.len)?;
        card.get(first as usize..end as usize)
    }
}

// The bytes where a store goes; none where there is no store.
fn stored(store: Option<Store>, card: &[u8]) -> &[u8] {
    store.and_then(|store| store.bytes(card)).unwrap_or(&[])
}

// Bytes that are shown as hex digits.
#[derive(Clone, Copy)]
struct Hex<'a>(&'a [u8]);

impl fmt::Display for Hex<'_> {
    fn fmt<W: fmt::Write>(&self, f: &mut fmt::Formatter<W>) -> fmt::Result {
        for byte in self.0 {
            write!(f, "{byte:02x}")?;
        }
        Ok(())
    }
}

// Puts one more change on a line: the first from column 55 on, which no instruction's text reaches, and each other behind a blank.
fn put_change(line: &mut Line, change: impl fmt::Display + Drop) {
    for _ in line.len..53 {
        let _ = line.write_str(" ");
    }
    let _ = write!(line, " {change}");
}

// A line has room for a step's text and changes: the whole trace asks for no memory.
fn line_of(word: u32, old: &Session, new: &Session) -> Line {
    let mut line = Line::empty();
    let _ = write!(line, "{:016x} {}", old.pc.0, Word(word));
    for (i, (before, after)) in old.regs.iter().zip(new.regs.iter()).enumerate() {
        if before != after {
            put_change(&mut line, format_args!("r{i}={after:016x}"));
        }
    }
    line
}

// One step; an instruction that raises is no step, and has no line.
fn step<'a>(rt: &impl System, inputs: &mut Inputs) -> Result<Reply, Failure<'a>> {
    let window = inputs.window();
    let old = inputs.session;
    // 0, where there is no word, is no instruction.
    let word = cpu::fetch(&inputs.code, old.pc).unwrap_or(0);
    let store = Store::next(&old, word);
    // No store takes more than eight bytes.
    let mut before = [0u8; 8];
    for (place, byte) in before.iter_mut().zip(stored(store, &inputs.card)) {
        *place = *byte;
    }
    let reply = host::run(&inputs.code, &mut inputs.card, window, old, 1);
    inputs.session = reply.session;
    if reply.steps == 0 {
        return Ok(reply);
    }
    let mut line = line_of(word, &old, &reply.session);
    let after = stored(store, &inputs.card);
    if let Some(store) = store
        && before.get(..after.len()) != Some(after)
    {
        put_change(
            &mut line,
            format_args!("{:016x}={}", store.at.0, Hex(after)),
        );
    }
    let _ = line.write_str("\n");
    rt.write_all(line.written())?;
    Ok(reply)
}

// The whole run, as one run with that budget would end.
fn steps<'a>(rt: &impl System, mut inputs: Inputs) -> Result<Reply, Failure<'a>> {
    for done in 0..inputs.budget {
        let reply = step(rt, &mut inputs)?;
        if reply.steps == 0 {
            return Ok(Reply {
                steps: done,
                ..reply
            });
        }
    }
    Ok(Reply {
        outcome: Outcome::Stopped(Stop::Spent),
        steps: inputs.budget,
        session: inputs.session,
    })
}

pub fn trace<'a>(
    rt: &impl System,
    module: &'a [u8],
    card: &'a [u8],
    options: Options<'a>,
) -> Result<(), Failure<'a>> {
    let inputs = Inputs::load(rt, module, card, options)?;
    refuse::of_run(
        inputs.code.len(),
        inputs.card.len(),
        inputs.window(),
        inputs.session,
        inputs.budget,
    )?;
    let reply = steps(rt, inputs)?;
    out::reply(rt, reply)?;
    Ok(())
}
