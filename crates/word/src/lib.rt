// The bits of a register: its low bits, its sign, its signed value, and sums that wrap.
#![tactic(auto)]

ghost use Rattle.std.specs.Prelude.{◌≡◌, ◌<◌, ◌≤◌};
ghost use Rattle.word.specs.Word.{low, cut, sext, signed, add_d, sub_d, less};

// The low k bits.
pub fn low_bits(x: u64, k: u64) -> u64
    requires { k ≤ 64 }
    ensures { result ≡ low k x }
{
    if k == 0 { 0 } else { x << (64 - k) >> (64 - k) }
}

// The low word.
pub fn low_word(x: u64) -> u32
    ensures { result ≡ low 32 x }
{
    (x % 0x1_0000_0000) as u32
}

// The register's number, read as signed.
pub fn as_signed(x: u64) -> i64
    ensures { result ≡ signed 64 x }
{
    x.cast_signed()
}

// The register that holds a signed number.
pub fn as_bits(z: i64) -> u64
    ensures { result ≡ cut 64 z }
{
    z.cast_unsigned()
}

// The low k bits with their sign: pushed to the top, and brought back by a shift that keeps the sign.
pub fn sign_extend(x: u64, k: u64) -> u64
    requires { (0 < k) × (k ≤ 64) }
    ensures { result ≡ sext k x }
{
    let s = 64 - k;
    as_bits(as_signed(x << s) >> s)
}

// The low word, read as signed.
pub fn as_word(x: u64) -> i32
    ensures { result ≡ signed 32 x }
{
    low_word(x).cast_signed()
}

// The sums of registers and of addresses: every wrapping sum of the emulator is one of these two.
pub fn add_d(rj: u64, rk: u64) -> u64
    ensures { result ≡ add_d rj rk }
{
    rj.wrapping_add(rk)
}

pub fn sub_d(rj: u64, rk: u64) -> u64
    ensures { result ≡ sub_d rj rk }
{
    rj.wrapping_sub(rk)
}

// The signed comparison.
pub fn less_than(rj: u64, rk: u64) -> bool
    ensures { result ≡ less rj rk }
{
    as_signed(rj) < as_signed(rk)
}
