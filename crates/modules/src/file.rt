// A module's files, as zones.code.
use std::fs;
use std::io::Read;
use std::rt::Files;

// The longest path: eight bytes of name, the point, and five of kind. There is no heap in it: docs/TRUSTED.md says what the program
// reaches.
const PATH: usize = 14;

// Whether the file has just as many bytes as there is room for. A read that fails finds none.
fn read_exactly<F: Read>(file: &mut F, room: &mut [u8]) -> bool {
    let mut beyond = [0u8; 1];
    let n = report::read_full(file, room).unwrap_or(0);
    let more = report::read_full(file, &mut beyond).unwrap_or(0);
    n == room.len() && more == 0
}

// Reads a module's file of this kind, and says whether it is there and fills the room.
pub fn load<R: Files>(rt: &R, name: &[u8], kind: &[u8], room: &mut [u8]) -> bool {
    let mut bytes = [0u8; PATH];
    let parts = name.iter().chain(b".").chain(kind);
    for (place, b) in bytes.iter_mut().zip(parts) {
        *place = *b;
    }
    let n = name.len().wrapping_add(1).wrapping_add(kind.len());
    let Ok(path) = str::from_utf8(text::part(&bytes, 0, n)) else {
        return false;
    };
    match fs::open(rt, path) {
        Ok(mut file) => read_exactly(&mut file, room),
        Err(_) => false,
    }
}
