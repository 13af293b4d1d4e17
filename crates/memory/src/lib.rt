// What loads read and stores write, at an offset in the arena.

#![tactic(auto)]

ghost use Rattle.std.specs.Prelude.{◌≡◌, ◌+◌, ◌≤◌, length};
ghost use Rattle.place.specs.Place.{bytes_of};
ghost use Rattle.place.specs.declared.Width.{Width};
ghost use Rattle.memory.specs.Memory.{load_width_of, loaded_of, store_width_of, stored_of};

use isa::{Load, Store};
use place::{ArenaOffset, Width};

// Loads and stores move bytes between a register and the arena: this many.
pub trait Transfer {
    ghost width_of: { Self → Width };

    fn width(self) -> Width
        ensures { result ≡ width_of self };
}

impl Transfer for Load {
    ghost width_of = { load_width_of };

    fn width(self) -> Width {
        match self {
            Load::LdB => Width::Byte,
            Load::LdH => Width::Half,
            Load::LdW => Width::Word,
            Load::LdD => Width::Double,
            Load::LdBu => Width::Byte,
            Load::LdHu => Width::Half,
            Load::LdWu => Width::Word,
        }
    }
}

impl Transfer for Store {
    ghost width_of = { store_width_of };

    fn width(self) -> Width {
        match self {
            Store::StB => Width::Byte,
            Store::StH => Width::Half,
            Store::StW => Width::Word,
            Store::StD => Width::Double,
        }
    }
}

// What a load puts into its register.
#[tactic(auto, unfolding(crate::specs::Memory::loaded_of))]
pub fn read(arena: &[u8], at: ArenaOffset, kind: Load) -> u64
    requires { at.0 + bytes_of (load_width_of kind) ≤ length arena.now }
    ensures { result ≡ loaded_of kind at arena.now }
{
    match kind {
        Load::LdB => word::sign_extend(byte_order::get::<1>(arena, at.0), 8),
        Load::LdH => word::sign_extend(byte_order::get::<2>(arena, at.0), 16),
        Load::LdW => word::sign_extend(byte_order::get::<4>(arena, at.0), 32),
        Load::LdD => byte_order::get::<8>(arena, at.0),
        Load::LdBu => byte_order::get::<1>(arena, at.0),
        Load::LdHu => byte_order::get::<2>(arena, at.0),
        Load::LdWu => byte_order::get::<4>(arena, at.0),
    }
}

// A store writes the low bytes of its register.
#[tactic(auto, unfolding(crate::specs::Memory::stored_of))]
pub fn write(arena: &mut [u8], at: ArenaOffset, width: Width, value: u64)
    requires { at.0 + bytes_of width ≤ length arena.old }
    ensures { arena.new ≡ stored_of width at value arena.old }
{
    match width {
        Width::Byte => byte_order::put::<1>(arena, at.0, value),
        Width::Half => byte_order::put::<2>(arena, at.0, value),
        Width::Word => byte_order::put::<4>(arena, at.0, value),
        Width::Double => byte_order::put::<8>(arena, at.0, value),
    }
}
