// Holds one step of the machine to a recording of an independent emulator (tools/record-steps), and prints for each mnemonic how many
// cases there were and how many of them differ. All 32 registers, pc, the stop and every byte of the arena are compared.
//
// A line has 209 bytes, all numbers in hexadecimal. In brackets: where a field begins and how many digits it has.
//     letter [0, 1]: Q is what the emulator did, H what document 01 says; row [2, 2] and its name [5, 12]
//     before: word [18, 8], pc [27, 16], length of the code [44, 5], values of the registers that the word's bits 4:0 [50, 16],
//         9:5 [67, 16] and 14:10 [84, 16] name, length of the window [101, 5]; bytes of the window: their offset [107, 5], how many
//         [113, 1], and their values in the order of memory [115, 16]
//     after: ecode [132, 2], subcode [135, 2] and what the stop carries [138, 16], zeros where the instruction completes; pc [155, 16],
//         the register that changed [172, 2], 0 for none, its value [175, 16]; the bytes of the window [192, 16]
// All else is a pattern that `given` makes, and must not change.
#![tactic(auto)]

mod given;

use apply::Stepped;
use fault::{Fault, Telling};
use given::{CODE, Given, LINE};
use place::{ArenaOffset, GuestAddr, Window};
use report::case::Case;
use report::lines;
use report::lines::{Line, Lines};
use report::recording::Recording;
use std::io;

// The arena that the largest window needs.
const ARENA: usize = 65602;

// The numbers of a stop; an instruction that completes has zeros, as the line has.
fn stop_numbers(end: Result<(), Fault>) -> Telling {
    match end {
        Ok(()) => Telling {
            ecode: 0,
            subcode: 0,
            carried: 0,
        },
        Err(fault) => Telling::from(fault),
    }
}

// Prints what is not as the line says.
fn compare<P: Print>(
    case: &mut Case<'_, P>,
    given: &Given<'_>,
    s: Stepped,
    arena: &[u8],
) -> io::Result<()> {
    let stop = stop_numbers(s.end);
    case.field("ecode", stop.ecode, 132, 2)?;
    case.field("subcode", stop.subcode, 135, 2)?;
    case.field("carried", stop.carried, 138, 16)?;
    case.field("pc", s.pc.0, 155, 16)?;
    case.registers(&s.regs, &given.registers_after)?;
    // Every byte of the arena, outside the window too.
    case.bytes("arena byte", arena, |i| given.arena_after.byte(i))
}

// Makes a line's step in as much code and arena as the line says, with the word in its place, and compares.
fn hold<P: Print>(
    case: &mut Case<'_, P>,
    given: &Given<'_>,
    code: &mut [u8; CODE],
    arena: &mut [u8; ARENA],
) -> io::Result<()> {
    let window = Window {
        start: ArenaOffset(given::START),
        len: given.window_length,
    };
    let lent = &mut arena[..given::START + given.window_length + given::AFTER];
    report::fill_with(lent, |i| given.arena.byte(i));
    given.put_word(code, given.word);
    let s = cpu::step(
        &code[..given.code_length],
        lent,
        window,
        given.registers,
        GuestAddr(given.pc),
    );
    given.put_word(code, 0);
    compare(case, given, s, lent)
}

// A proved loop has to end, and nothing says that the input does: so the lines are numbered up to a number that no run reaches.
fn main(rt: HostRuntime) -> io::Result<()> {
    let mut code = [0u8; CODE];
    let mut arena = [0u8; ARENA];
    let mut recording = Recording::default();
    for (number, line) in (1..u64::MAX).zip(Lines::<_, LINE>::new(rt.reader())) {
        let Line::Whole(line) = line? else {
            lines::print_cut(&rt)?;
            break;
        };
        recording.begin(&rt, &line)?;
        let mut case = Case::new(&rt, number, &line);
        match Given::of(&line) {
            Some(given) => hold(&mut case, &given, &mut code, &mut arena)?,
            None => case.no_case()?,
        }
        recording.count(&line, case.differs);
    }
    recording.end(&rt)
}
