// Products of two registers: their low halves, their high halves, and the whole product of two words.

#![tactic(auto)]

ghost use Rattle.std.specs.Prelude.{◌≡◌};
ghost use Rattle.product.specs.Product.{signed_product, mulh_d, product_of};

#[derive(Clone, Copy)]
pub enum Product {
    MulW,
    MulD,
    MulhW,
    MulhWu,
    MulhD,
    MulhDu,
    MulwDW,
    MulwDWu,
}

// The high half of the signed product of two registers.
fn signed_high(rj: u64, rk: u64) -> u64
    ensures { result ≡ mulh_d rj rk }
{
    let product = word::as_signed(rj) as i128 * word::as_signed(rk) as i128;
    word::as_bits((product >> 64) as i64)
}

// The signed product of two words, which 64 bits hold.
fn word_product(rj: u64, rk: u64) -> i64
    ensures { result ≡ signed_product 32 rj rk }
{
    word::as_word(rj) as i64 * word::as_word(rk) as i64
}

#[tactic(auto, using(crate::proofs::Lows::lows), unfolding(crate::specs::Product::product_of))]
pub fn product_value(op: Product, rj: u64, rk: u64) -> u64
    ensures { result ≡ product_of op rj rk }
{
    let low_words = word::low_word(rj) as u64 * word::low_word(rk) as u64;
    match op {
        Product::MulW => word::sign_extend(rj.wrapping_mul(rk), 32),
        Product::MulD => rj.wrapping_mul(rk),
        Product::MulhW => word::as_bits(word_product(rj, rk) >> 32),
        Product::MulhWu => word::sign_extend(low_words >> 32, 32),
        Product::MulhD => signed_high(rj, rk),
        Product::MulhDu => (rj as u128 * rk as u128 >> 64) as u64,
        Product::MulwDW => word::as_bits(word_product(rj, rk)),
        Product::MulwDWu => low_words,
    }
}
