// What an effect does to registers, pc and arena. Nothing else of a step sees the arena.

#![tactic(auto)]

ghost use Rattle.std.specs.Prelude.{◌≡◌, ◌+◌, ◌^◌, ◌<◌};
ghost use Rattle.place.specs.Place.{InArena};
ghost use Rattle.apply.specs.Machine.{state};
ghost use Rattle.apply.specs.Apply.{access_of, apply_of, Meets};

use effect::Effect;
use fault::Fault;
use memory::Transfer;
use place::{ArenaOffset, GuestAddr, Width, Window};

// How a step ended, and the registers and the pc that it leaves.
#[derive(Clone, Copy)]
pub struct Stepped {
    pub end: Result<(), Fault>,
    pub regs: [u64; 32],
    pub pc: GuestAddr,
}

// Alignment first, then the window.
#[tactic(auto, using(place::proofs::Reach::bytes_small), unfolding(crate::specs::Apply::access_of))]
fn access_at(window: Window, a: GuestAddr, width: Width) -> Result<ArenaOffset, Fault>
    requires { window.start.0 + window.len < 2 ^ 63 }
    ensures { result ≡ access_of window a width }
{
    if a.0 % width.bytes() != 0 {
        return Err(Fault::Ale(a));
    }
    place::locate(window, a, width).ok_or(Fault::Adem(a))
}

// Arena, window, registers and pc are arguments of their own: in a struct they would go through memory at each call (docs/DECISIONS.md).
// The one place that applies an effect to registers, pc and arena: the next pc, or a fault. The window lies in the arena.
#[tactic(auto, using(crate::proofs::Accesses::access_inside), unfolding(crate::specs::Apply::apply_of))]
pub fn apply(
    arena: &mut [u8],
    window: Window,
    e: Effect,
    regs: &mut [u64; 32],
    pc: GuestAddr,
) -> Result<GuestAddr, Fault>
    requires { InArena window arena.old }
    ensures { Meets result (state regs.new pc arena.new) (apply_of window e (state regs.old pc arena.old)) }
{
    match e {
        Effect::Write(rd, value, to) => {
            registers::put(regs, rd, value);
            Ok(to)
        }
        Effect::Jump(to) => Ok(to),
        Effect::Load(kind, rd, a) => {
            let at = access_at(window, a, kind.width())?;
            registers::put(regs, rd, memory::read(arena, at, kind));
            Ok(operate::next(pc))
        }
        Effect::Store(width, value, a) => {
            let at = access_at(window, a, width)?;
            memory::write(arena, at, width, value);
            Ok(operate::next(pc))
        }
        Effect::Raise(f) => Err(f),
    }
}
