// The 32 registers. A register's number is taken modulo 32, as a field of five bits, so that every number names one and no bound
// has to be carried.

#![tactic(auto)]

ghost use Rattle.std.specs.Prelude.{◌≡◌};
ghost use Rattle.registers.specs.Registers.{reg, written};

#[tactic(auto, unfolding(crate::specs::Registers::reg))]
pub fn get(regs: &[u64; 32], i: u8) -> u64
    ensures { result ≡ reg regs.now i }
{
    regs[i as usize % 32]
}

// A write to register 0 is dropped.
#[tactic(auto, unfolding(crate::specs::Registers::written))]
pub fn put(regs: &mut [u64; 32], i: u8, v: u64)
    ensures { regs.new ≡ written regs.old i v }
{
    let at = i as usize % 32;
    if at != 0 {
        regs[at] = v;
    }
}
