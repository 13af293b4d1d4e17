// Little-endian numbers of N bytes in a list of bytes. N is known where these are called, so that what is compiled for 1, 2, 4 and 8
// bytes is one load or one store.

#![tactic(auto)]

ghost use Rattle.std.specs.Prelude.{◌≡◌, ◌+◌, ◌^◌, ◌≤◌, ◌<◌, length};
ghost use Rattle.byte_order.specs.Bytes.{get_le, put_le};

pub fn get<const N: usize>(s: &[u8], at: usize) -> u64
    requires width { N ≤ 8 }
    requires room { at + N ≤ length s.now }
    ensures { (result ≡ get_le N at s.now) × (result < 256 ^ N) }
{
    let mut bytes = [0; 8];
    bytes[..N].copy_from_slice(&s[at..at + N]);
    u64::from_le_bytes(bytes)
}

pub fn put<const N: usize>(s: &mut [u8], at: usize, v: u64)
    requires width { N ≤ 8 }
    requires room { at + N ≤ length s.old }
    ensures { s.new ≡ put_le N at v s.old }
{
    s[at..at + N].copy_from_slice(&v.to_le_bytes()[..N]);
}
