// What branches and assertions test, where offsets lead, and the configuration word.

#![tactic(auto)]

ghost use Rattle.std.specs.Prelude.{◌≡◌, ◌<◌, ◌≤◌};
ghost use Rattle.control.specs.Control.{taken_of, zero_taken_of, words_on_of, bytes_on_of, passes_of, config_of};

use isa::{Assert, Branch, Config, ZeroBranch};
use place::GuestAddr;

pub fn taken(op: Branch, rj: u64, rd: u64) -> bool
    ensures { result ≡ taken_of op rj rd }
{
    match op {
        Branch::Beq => rj == rd,
        Branch::Bne => rj != rd,
        Branch::Blt => word::less_than(rj, rd),
        Branch::Bge => !word::less_than(rj, rd),
        Branch::Bltu => rj < rd,
        Branch::Bgeu => rd <= rj,
    }
}

pub fn zero_taken(op: ZeroBranch, rj: u64) -> bool
    ensures { result ≡ zero_taken_of op rj }
{
    match op {
        ZeroBranch::Beqz => rj == 0,
        ZeroBranch::Bnez => rj != 0,
    }
}

// Words and bytes have a function each: one over the unit would have callers say 4 or 1, where these say what the manual does.
// An offset that counts words; with the two zeros that are put below it, it has k bits.
pub fn words_on(from: GuestAddr, offs: u32, k: u64) -> GuestAddr
    requires { (0 < k) × (k ≤ 64) }
    ensures { result ≡ words_on_of from offs k }
{
    from.plus(word::sign_extend(offs as u64 * 4, k))
}

// An offset of 12 bits that counts bytes.
pub fn bytes_on(from: GuestAddr, offs: u32) -> GuestAddr
    ensures { result ≡ bytes_on_of from offs }
{
    from.plus(word::sign_extend(offs as u64, 12))
}

pub fn passes(op: Assert, rj: u64, rk: u64) -> bool
    ensures { result ≡ passes_of op rj rk }
{
    match op {
        Assert::AsrtleD => !word::less_than(rk, rj),
        Assert::AsrtgtD => word::less_than(rk, rj),
    }
}

pub fn config(op: Config, rj: u64) -> u64
    ensures { result ≡ config_of op rj }
{
    match op {
        Config::Cpucfg => { if rj == 1 { 0x2_f2f2 } else { 0 } }
    }
}
