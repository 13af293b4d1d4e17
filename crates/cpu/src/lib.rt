// One step of the machine: fetch, decode, ask, apply.

#![tactic(auto)]

ghost use Rattle.std.specs.Prelude.{◌≡◌};
ghost use Rattle.place.specs.Place.{InArena};
ghost use Rattle.apply.specs.Machine.{ground_on, state};
ghost use Rattle.apply.specs.Apply.{Meets};
ghost use Rattle.cpu.specs.Step.{fetch_of, step_of, Steps};

use apply::Stepped;
use fault::Fault;
use place::{GuestAddr, Window};

// The word at the pc.
#[tactic(auto, using(place::proofs::Reach::fetched_inside), unfolding(crate::specs::Step::fetch_of))]
pub fn fetch(code: &[u8], pc: GuestAddr) -> Option<u32>
    ensures { result ≡ fetch_of code.now pc }
{
    let at = place::fetch_place(code.len(), pc)?;
    Some(byte_order::get::<4>(code, at.0) as u32)
}

// A turn of the run's loop, on lent registers. After a fault its promise says nothing of the registers: who calls it keeps a copy.
#[tactic(auto, using(crate::proofs::Asked::decoded), unfolding(crate::specs::Step::step_of))]
pub fn turn(
    code: &[u8],
    arena: &mut [u8],
    window: Window,
    regs: &mut [u64; 32],
    pc: GuestAddr,
) -> Result<GuestAddr, Fault>
    requires { InArena window arena.old }
    ensures { Meets result (state regs.new pc arena.new) (step_of (ground_on code.now window) (state regs.old pc arena.old)) }
{
    let word = fetch(code, pc).ok_or(Fault::Adef(pc))?;
    apply::apply(arena, window, asked::of_word(word, regs, pc), regs, pc)
}

// A step by value: the array is copied, the copy is what is written, and a raising instruction returns the array as it came.
#[tactic(auto, using(crate::proofs::Turns::goes_on, crate::proofs::Turns::stops))]
pub fn step(
    code: &[u8],
    arena: &mut [u8],
    window: Window,
    regs: [u64; 32],
    pc: GuestAddr,
) -> Stepped
    requires { InArena window arena.old }
    ensures { Steps result arena.new (step_of (ground_on code.now window) (state regs pc arena.old)) }
{
    let mut next = regs;
    match turn(code, arena, window, &mut next, pc) {
        Ok(to) => Stepped {
            end: Ok(()),
            regs: next,
            pc: to,
        },
        Err(f) => Stepped {
            end: Err(f),
            regs,
            pc,
        },
    }
}
