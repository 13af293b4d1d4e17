// Numbers in a line of text. Past the line's end there are zeros, so no caller has to know its length.
#![tactic(auto)]

ghost use Rattle.std.specs.Prelude.{◌↔◌, ◌⊎◌, IsTrue, ◌+◌, ◌*◌, ◌^◌, ◌<◌, ◌≤◌};

// A hexadecimal digit, of which the letters are small ones.
pub fn is_digit(b: u8) -> bool
    ensures { IsTrue result ↔ (((48 ≤ b) × (b ≤ 57)) ⊎ ((97 ≤ b) × (b ≤ 102))) }
{
    matches!(b, b'0'..=b'9' | b'a'..=b'f')
}

pub fn is_printable(b: u8) -> bool
    ensures { IsTrue result ↔ ((32 ≤ b) × (b ≤ 126)) }
{
    matches!(b, b' '..=b'~')
}

// Whether each column of a line has what may stand in it.
pub fn has_columns<F: Fn(usize, u8) -> bool>(line: &[u8], fits: F) -> bool
    requires { F.IsAlwaysCallable fits }
{
    line.iter().enumerate().all(|(column, b)| fits(column, *b))
}

fn digit(b: u8) -> u64
    ensures { result < 16 }
{
    match b {
        b'0'..=b'9' => (b - b'0') as u64,
        b'a'..=b'f' => (b - b'a') as u64 + 10,
        _ => 0,
    }
}

pub fn byte(s: &[u8], at: usize) -> u8 {
    s.get(at).copied().unwrap_or(0)
}

// The low 64 bits of the number that n digits at a place stand for: it is cut before each digit, so that it fits. The line may end
// before the last digit, so the digits are asked for by their places.
fn of_digits<const BASE: u64>(s: &[u8], at: usize, n: usize) -> u64
    requires { BASE ≤ 16 }
    ensures { result < 16 ^ n }
{
    let mut value = 0;
    for i in 0..n {
        let cut = value % 0x1000_0000_0000_0000;
        value = cut * BASE + digit(byte(s, at.wrapping_add(i)));
    }
    value
}

// The number that n hexadecimal digits at a place stand for, its low 64 bits.
pub fn number(s: &[u8], at: usize, n: usize) -> u64
    ensures { result < 16 ^ n }
{
    of_digits::<16>(s, at, n)
}

// The number that n decimal digits at a place stand for, of which there are at most 18.
pub fn decimal(s: &[u8], at: usize, n: usize) -> u64
    ensures { result < 16 ^ n }
{
    of_digits::<10>(s, at, n)
}

// A number of two digits.
pub fn pair(s: &[u8], at: usize) -> u8 {
    number(s, at, 2) as u8
}

// A number of eight digits.
pub fn half(s: &[u8], at: usize) -> u32 {
    number(s, at, 8) as u32
}

// n bytes from a place on, or none where the line is shorter.
pub fn part(s: &[u8], at: usize, n: usize) -> &[u8] {
    s.get(at..).and_then(|rest| rest.get(..n)).unwrap_or(&[])
}
