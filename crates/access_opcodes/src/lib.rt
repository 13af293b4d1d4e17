// What the opcode of an access is. The arms of each function stand in the table's order, which is what the proof of the last arm asks. One
// function for both is no plainer: no number that stands in one is in the other.

#![tactic(auto)]

ghost use Rattle.std.specs.Prelude.{◌≡◌, ◌/◌, ◌^◌};
ghost use Rattle.opcode.specs.Decode.{decode_of};
ghost use Rattle.opcode.specs.Found.{access, indexed_access};

use isa::{Load, Preload, Store};
use opcode::Access;

// LD, ST and PRELD.
pub fn accesses(word: u32) -> Option<Access>
    requires { word / 2 ^ 26 ≡ 10 }
    ensures { access word result ≡ decode_of word }
{
    match word / 0x40_0000 {
        0xa0 => Some(Access::Load(Load::LdB)),
        0xa1 => Some(Access::Load(Load::LdH)),
        0xa2 => Some(Access::Load(Load::LdW)),
        0xa3 => Some(Access::Load(Load::LdD)),
        0xa8 => Some(Access::Load(Load::LdBu)),
        0xa9 => Some(Access::Load(Load::LdHu)),
        0xaa => Some(Access::Load(Load::LdWu)),
        0xa4 => Some(Access::Store(Store::StB)),
        0xa5 => Some(Access::Store(Store::StH)),
        0xa6 => Some(Access::Store(Store::StW)),
        0xa7 => Some(Access::Store(Store::StD)),
        0xab => Some(Access::Preload(Preload::Preld)),
        _ => None,
    }
}

// LDX, STX and PRELDX.
pub fn indexed(word: u32) -> Option<Access>
    requires { word / 2 ^ 22 ≡ 0xe0 }
    ensures { indexed_access word result ≡ decode_of word }
{
    match word / 0x8000 {
        0x7000 => Some(Access::Load(Load::LdB)),
        0x7008 => Some(Access::Load(Load::LdH)),
        0x7010 => Some(Access::Load(Load::LdW)),
        0x7018 => Some(Access::Load(Load::LdD)),
        0x7040 => Some(Access::Load(Load::LdBu)),
        0x7048 => Some(Access::Load(Load::LdHu)),
        0x7050 => Some(Access::Load(Load::LdWu)),
        0x7020 => Some(Access::Store(Store::StB)),
        0x7028 => Some(Access::Store(Store::StH)),
        0x7030 => Some(Access::Store(Store::StW)),
        0x7038 => Some(Access::Store(Store::StD)),
        0x7058 => Some(Access::Preload(Preload::Preldx)),
        _ => None,
    }
}
