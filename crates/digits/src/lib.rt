// One register: sign extension of its lowest bits, runs of bits, groups of bits in the other order.

#![tactic(auto)]

ghost use Rattle.std.specs.Prelude.{◌≡◌, ◌+◌, ◌*◌, ◌<◌, ◌≤◌};
ghost use Rattle.digits.specs.Reverse.{reverse, reverse_each};
ghost use Rattle.digits.specs.Unary.{unary_of};

use word::low_word;

#[derive(Clone, Copy)]
pub enum Unary {
    ExtWB,
    ExtWH,
    CloW,
    CloD,
    ClzW,
    ClzD,
    CtoW,
    CtoD,
    CtzW,
    CtzD,
    Revb2h,
    Revb4h,
    Revb2w,
    RevbD,
    Revh2w,
    RevhD,
    Bitrev4b,
    Bitrev8b,
    BitrevW,
    BitrevD,
}

// The lowest groups of `bits` digits, in the other order.
fn reversed(x: u64, bits: u64, groups: u64) -> u64
    requires { (bits < 64) × (bits * groups ≤ 64) }
    ensures { result ≡ reverse bits groups x }
{
    let mut r: u64 = 0;
    let mut rest = x;
    for k in 0u64..groups {
        r = (r << bits) + word::low_bits(rest, bits);
        rest = rest >> bits;
    }
    r
}

// The lowest parts of `groups` groups, each reversed in its place.
fn reversed_each(x: u64, bits: u64, groups: u64, parts: u64) -> u64
    requires { (bits < 64) × (0 < bits * groups) × (bits * groups ≤ 64) × (bits * groups * parts ≤ 64) }
    ensures { result ≡ reverse_each bits groups parts x }
{
    let size = bits * groups;
    let mut r: u64 = 0;
    for k in 0u64..parts {
        let at = size * k;
        r = (reversed(x >> at, bits, groups) << at) + r;
    }
    r
}

#[tactic(auto, using(crate::proofs::Counts::runs), unfolding(crate::specs::Unary::unary_of))]
pub fn unary_value(op: Unary, rj: u64) -> u64
    ensures { result ≡ unary_of op rj }
{
    match op {
        Unary::ExtWB => word::sign_extend(rj, 8),
        Unary::ExtWH => word::sign_extend(rj, 16),
        Unary::CloW => low_word(rj).leading_ones() as u64,
        Unary::CloD => rj.leading_ones() as u64,
        Unary::ClzW => low_word(rj).leading_zeros() as u64,
        Unary::ClzD => rj.leading_zeros() as u64,
        Unary::CtoW => low_word(rj).trailing_ones() as u64,
        Unary::CtoD => rj.trailing_ones() as u64,
        Unary::CtzW => low_word(rj).trailing_zeros() as u64,
        Unary::CtzD => rj.trailing_zeros() as u64,
        Unary::Revb2h => word::sign_extend(reversed_each(rj, 8, 2, 2), 32),
        Unary::Revb4h => reversed_each(rj, 8, 2, 4),
        Unary::Revb2w => reversed_each(rj, 8, 4, 2),
        Unary::RevbD => reversed(rj, 8, 8),
        Unary::Revh2w => reversed_each(rj, 16, 2, 2),
        Unary::RevhD => reversed(rj, 16, 4),
        Unary::Bitrev4b => word::sign_extend(reversed_each(rj, 1, 8, 4), 32),
        Unary::Bitrev8b => reversed_each(rj, 1, 8, 8),
        Unary::BitrevW => word::sign_extend(reversed(rj, 1, 32), 32),
        Unary::BitrevD => reversed(rj, 1, 64),
    }
}
