// Bytes and bit fields of registers, moved.

#![tactic(auto)]

ghost use Rattle.std.specs.Prelude.{◌≡◌, ◌<◌};
ghost use Rattle.fields.specs.Bytepick.{bytepick_of};
ghost use Rattle.fields.specs.Field.{pick, insert, field_of};

// Bytes of two registers.
#[derive(Clone, Copy)]
pub enum Bytepick {
    BytepickW,
    BytepickD,
}

// A field of a register.
#[derive(Clone, Copy)]
pub enum Field {
    BstrinsW,
    BstrinsD,
    BstrpickW,
    BstrpickD,
}

#[tactic(auto, using(crate::proofs::Splices::picks), unfolding(crate::specs::Bytepick::bytepick_of))]
pub fn bytepick_value(op: Bytepick, rj: u64, rk: u64, sa: u32) -> u64
    ensures { result ≡ bytepick_of op rj rk sa }
{
    match op {
        Bytepick::BytepickW => {
            let s = 8 * (sa % 4);
            let under = word::low_word(rj) as u64 >> (32 - s);
            word::sign_extend((rk << s) + under, 32)
        }
        Bytepick::BytepickD => {
            let s = 8 * (sa % 8);
            if s == 0 {
                rk
            } else {
                (rk << s) + (rj >> (64 - s))
            }
        }
    }
}

// x[msb:lsb].
fn picked(x: u64, msb: u64, lsb: u64) -> u64
    requires { (msb < 64) × (lsb < 64) }
    ensures { result ≡ pick x msb lsb }
{
    if msb < lsb {
        0
    } else {
        word::low_bits(x >> lsb, msb + 1 - lsb)
    }
}

// x with y's low bits at [msb:lsb].
#[tactic(auto, using(crate::proofs::Splices::inserts))]
fn inserted(x: u64, y: u64, msb: u64, lsb: u64) -> u64
    requires { (msb < 64) × (lsb < 64) }
    ensures { result ≡ insert x y msb lsb }
{
    if msb < lsb {
        return x;
    }
    let above = x - word::low_bits(x, msb + 1);
    let field = word::low_bits(y, msb + 1 - lsb) << lsb;
    above + field + word::low_bits(x, lsb)
}

#[tactic(auto, unfolding(crate::specs::Field::field_of))]
pub fn field_value(op: Field, rd: u64, rj: u64, msb: u32, lsb: u32) -> u64
    ensures { result ≡ field_of op rd rj msb lsb }
{
    let m = msb as u64;
    let l = lsb as u64;
    match op {
        Field::BstrinsW => word::sign_extend(inserted(rd, rj, m % 32, l % 32), 32),
        Field::BstrinsD => inserted(rd, rj, m % 64, l % 64),
        Field::BstrpickW => word::sign_extend(picked(rj, m % 32, l % 32), 32),
        Field::BstrpickD => picked(rj, m % 64, l % 64),
    }
}
