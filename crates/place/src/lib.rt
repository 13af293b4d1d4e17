// The places of the machine: addresses as the guest sees them, offsets in the arena, offsets in the code. Each is a type of its own,
// and the only ways from an address to an offset are here.

#![tactic(auto)]

ghost use Rattle.std.specs.Prelude.{◌≡◌, ◌+◌, ◌^◌, ◌≤◌, ◌<◌};
ghost use Rattle.place.specs.Place.{bytes_of, plus_of, within_at, locate_of, fetch_place_of};

#[derive(Clone, Copy, PartialEq, Eq)]
pub struct GuestAddr(pub u64);

#[derive(Clone, Copy, PartialEq, Eq)]
pub struct ArenaOffset(pub usize);

#[derive(Clone, Copy, PartialEq, Eq)]
pub struct CodeOffset(pub usize);

// The part of the arena that a run may touch.
#[derive(Clone, Copy, PartialEq, Eq)]
pub struct Window {
    pub start: ArenaOffset,
    pub len: usize,
}

// The house map: where code and window begin for the guest, and how long they may be.
impl GuestAddr {
    pub const CODE: u64 = 0x1_0000;

    pub const WINDOW: u64 = 0x4000_0000;

    // Sums of addresses wrap.
    pub fn plus(self, by: u64) -> GuestAddr
        ensures { result ≡ plus_of self by }
    {
        GuestAddr(word::add_d(self.0, by))
    }
}

impl CodeOffset {
    pub const MAX: usize = 65536;
}

impl Window {
    pub const MAX: usize = 65536;
}

// How much an access takes.
#[derive(Clone, Copy, PartialEq, Eq)]
pub enum Width {
    Byte,
    Half,
    Word,
    Double,
}

impl Width {
    pub fn bytes(self) -> u64
        ensures { result ≡ bytes_of self }
    {
        match self {
            Width::Byte => 1,
            Width::Half => 2,
            Width::Word => 4,
            Width::Double => 8,
        }
    }
}

// Where an access stands in the `len` bytes from `base` on, if all its bytes lie there. The difference wraps below `base` to a number that
// no length reaches; the width is compared with what is left after it, so that no sum can wrap.
fn within(base: u64, len: usize, a: GuestAddr, width: Width) -> Option<usize>
    requires { base + len ≤ 2 ^ 64 }
    ensures { result ≡ within_at base len a.0 (bytes_of width) }
{
    let room = len as u64;
    let d = word::sub_d(a.0, base);
    (d < room && width.bytes() <= room - d).then_some(d as usize)
}

// The window check: the only function that makes an arena offset from a guest address.
#[tactic(auto, using(crate::proofs::Reach::reached, crate::proofs::Reach::unreached), unfolding(crate::specs::Place::locate_of))]
pub fn locate(window: Window, a: GuestAddr, width: Width) -> Option<ArenaOffset>
    requires { window.start.0 + window.len < 2 ^ 63 }
    ensures { result ≡ locate_of window a width }
{
    let offset = within(GuestAddr::WINDOW, window.len, a, width)?;
    Some(ArenaOffset(window.start.0 + offset))
}

// Where in the code the word at a pc stands.
#[tactic(auto, using(crate::proofs::Reach::reached, crate::proofs::Reach::unreached), unfolding(crate::specs::Place::fetch_place_of))]
pub fn fetch_place(len: usize, pc: GuestAddr) -> Option<CodeOffset>
    requires { len < 2 ^ 63 }
    ensures { result ≡ fetch_place_of len pc }
{
    if pc.0 % 4 != 0 {
        return None;
    }
    let offset = within(GuestAddr::CODE, len, pc, Width::Word)?;
    Some(CodeOffset(offset))
}
