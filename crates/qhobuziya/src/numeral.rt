// Numbers that are given as text.
ghost use Rattle.std.specs.Prelude.{◌≤◌};

use std::str;

#[derive(Clone, Copy)]
pub enum NumeralError {
    NotNumber,
    TooLarge,
}

#[derive(Clone, Copy)]
enum Base {
    Ten,
    Sixteen,
}

impl Base {
    fn radix(self) -> u32
        ensures { (2 ≤ result) × (result ≤ 36) }
    {
        match self {
            Base::Ten => 10,
            Base::Sixteen => 16,
        }
    }

    fn has(self, digit: u8) -> bool {
        match self {
            Base::Ten => digit.is_ascii_digit(),
            Base::Sixteen => digit.is_ascii_hexdigit(),
        }
    }

    // The number that digits stand for, without the sign that the library would take.
    fn parse(self, digits: &[u8]) -> Result<u64, NumeralError> {
        if digits.is_empty() || !digits.iter().all(|digit| self.has(*digit)) {
            return Err(NumeralError::NotNumber);
        }
        let Ok(text) = str::from_utf8(digits) else {
            return Err(NumeralError::NotNumber);
        };
        u64::from_str_radix(text, self.radix()).map_err(|_| NumeralError::TooLarge)
    }
}

// What is behind 0x, where that is what a word begins with.
fn behind_hex(word: &[u8]) -> Option<&[u8]> {
    match word {
        [b'0', b'x' | b'X', digits @ ..] => Some(digits),
        _ => None,
    }
}

pub fn decimal(word: &[u8]) -> Result<u64, NumeralError> {
    Base::Ten.parse(word)
}

// Decimal, or 0x and hex.
pub fn value(word: &[u8]) -> Result<u64, NumeralError> {
    match behind_hex(word) {
        Some(digits) => Base::Sixteen.parse(digits),
        None => Base::Ten.parse(word),
    }
}

// One to eight hex digits, with or without 0x.
pub fn word(given: &[u8]) -> Result<u64, NumeralError> {
    let digits = behind_hex(given).unwrap_or(given);
    if digits.len() > 8 {
        return Err(NumeralError::TooLarge);
    }
    Base::Sixteen.parse(digits)
}
