// The arena: seven accounts side by side, as the server keeps them.
//
// A head of 5 bytes; then for each account 40 bytes: 37 are its record, and 3 between two records are nobody's. So account n begins
// at arena offset 5 + 40 n, which is odd for every n.
use place::{ArenaOffset, Window};

pub const LEN: usize = 285;

const HEAD: usize = 5;

const SLOT: usize = 40;

const RECORD: usize = 37;

// Where the account begins that the module runs for: number 2.
pub const OWN: usize = HEAD + 2 * SLOT;

pub static ARENA: [u8; LEN] = *b"fare:\
    0 Sipho zone 1, 06:58; zone 4, 17:02; | \
    1 Nomsa zone 2, 05:31; zone 2, 14:20; | \
    2 Thabo zone 5, 07:12; zone 6, 16:44; | \
    3 Mbali zone 3, 07:41; zone 1, 18:09; | \
    4 Bheki zone 1, 08:15; zone 3, 12:37; | \
    5 Lindi zone 4, 06:03; zone 2, 15:50; | \
    6 Tumi  zone 2, 09:26; zone 4, 19:33; | ";

// How many bytes of the arena are not as they were.
pub fn changed(arena: &[u8; LEN]) -> usize {
    arena
        .iter()
        .zip(&ARENA)
        .filter(|(now, before)| now != before)
        .count()
}

// The window of that account, and no other byte.
pub fn own_window() -> Window {
    Window {
        start: ArenaOffset(OWN),
        len: RECORD,
    }
}

// Whether the eight bytes from an arena offset on all lie in that window.
pub fn all_own(at: usize) -> bool {
    (OWN..=OWN + RECORD - 8).contains(&at)
}
