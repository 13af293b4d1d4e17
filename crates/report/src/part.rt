// Bytes of a buffer that a line gives; all others of the buffer are the pattern.

// Where the bytes begin, and their digits in the line, two for each.
#[derive(Clone, Copy)]
pub struct Part<'a> {
    pub from: usize,
    pub digits: &'a [u8],
}

impl Part<'_> {
    // Byte i of the buffer.
    pub fn byte(&self, i: usize) -> u8 {
        let given = i
            .checked_sub(self.from)
            .filter(|nth| *nth < self.digits.len() / 2);
        match given {
            Some(nth) => text::pair(self.digits, nth * 2),
            None => crate::pattern(i),
        }
    }
}
