// The numbers that a command is given.
use crate::failure::Usage;
use crate::numeral;
use crate::numeral::NumeralError;

#[derive(Clone, Copy)]
pub enum Quantity {
    // of steps
    Budget,
    // of an answer
    Value,
    // to decode
    Word,
}

impl Quantity {
    pub fn read<'a>(self, word: &'a [u8]) -> Result<u64, Usage<'a>> {
        let number = match self {
            Quantity::Budget => numeral::decimal(word),
            Quantity::Value => numeral::value(word),
            Quantity::Word => numeral::word(word),
        };
        number.map_err(|error| Usage::Numeral(self, error, word))
    }

    // What is wrong with the word that is given.
    pub fn complaint(self, error: NumeralError) -> &'static str {
        match (self, error) {
            (Quantity::Budget, NumeralError::NotNumber) => "--budget is not a decimal number",
            (Quantity::Budget, NumeralError::TooLarge) => "--budget is over 2^64 - 1",
            (Quantity::Value, NumeralError::NotNumber) => {
                "VALUE is not a number, decimal or 0x and hex digits"
            }
            (Quantity::Value, NumeralError::TooLarge) => "VALUE is over 2^64 - 1",
            (Quantity::Word, NumeralError::NotNumber) => "WORD is not 1 to 8 hex digits",
            (Quantity::Word, NumeralError::TooLarge) => "WORD has more than 8 hex digits",
        }
    }
}
