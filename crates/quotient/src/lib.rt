// Quotients and remainders of two registers. No divisor raises anything: a zero divisor gives 0 and 0.

#![tactic(auto)]

ghost use Rattle.std.specs.Prelude.{◌≡◌};
ghost use Rattle.quotient.specs.Quotient.{division_of};

#[derive(Clone, Copy)]
pub enum Division {
    DivW,
    ModW,
    DivWu,
    ModWu,
    DivD,
    ModD,
    DivDu,
    ModDu,
}

// Words are read as signed (DIV.W, MOD.W) or as they are. The least number by -1 has no quotient of its width: the division that wraps
// gives the least number.
pub fn division_value(op: Division, rj: u64, rk: u64) -> u64
    ensures { result ≡ division_of op rj rk }
{
    let (j, k) = (word::as_signed(rj), word::as_signed(rk));
    let (word_j, word_k) = (word::as_word(rj), word::as_word(rk));
    let (low_j, low_k) = (word::low_word(rj), word::low_word(rk));
    match op {
        Division::DivW if word_k != 0 => word::as_bits(word_j.wrapping_div(word_k) as i64),
        Division::ModW if word_k != 0 => word::as_bits(word_j.wrapping_rem(word_k) as i64),
        Division::DivWu if low_k != 0 => word::sign_extend((low_j / low_k) as u64, 32),
        Division::ModWu if low_k != 0 => word::sign_extend((low_j % low_k) as u64, 32),
        Division::DivD if k != 0 => word::as_bits(j.wrapping_div(k)),
        Division::ModD if k != 0 => word::as_bits(j.wrapping_rem(k)),
        Division::DivDu if rk != 0 => rj / rk,
        Division::ModDu if rk != 0 => rj % rk,
        // a zero divisor
        _ => 0,
    }
}
