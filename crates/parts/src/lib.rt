// The parts of a word, read where their format has them.

#![tactic(auto)]

ghost use Rattle.std.specs.Prelude.{◌≡◌, ◌≤◌, ◌+◌};
ghost use Rattle.parts.specs.Piece.{bits_from, offset_with};

// Where the number of a register begins.
pub const RD: u32 = 0;

pub const RJ: u32 = 5;

pub const RK: u32 = 10;

// The `SIZE` bits from bit `AT` up.
pub fn bits<const AT: u32, const SIZE: u32>(word: u32) -> u32
    requires { AT + SIZE ≤ 31 }
    ensures { result ≡ bits_from AT SIZE word }
{
    (word >> AT) % (1 << SIZE)
}

// The register whose number begins at bit `AT`.
pub fn register<const AT: u32>(word: u32) -> u8
    requires { AT ≤ 26 }
    ensures { result ≡ bits_from AT 5 word }
{
    bits::<AT, 5>(word) as u8
}

// An offset in two pieces: bits 25:10, and above them the `UPPER` bits from bit 0 up.
pub fn offset<const UPPER: u32>(word: u32) -> u32
    requires { UPPER ≤ 10 }
    ensures { result ≡ offset_with UPPER word }
{
    bits::<0, UPPER>(word) * 0x1_0000 + bits::<10, 16>(word)
}
