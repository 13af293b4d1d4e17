// The lines of an input, all of one length.
use std::io;
use std::io::Read;

// A line with its newline. The input's end may cut the last one; zeros stand for what it lacks.
#[derive(Drop)]
pub enum Line<const N: usize> {
    Whole([u8; N]),
    Cut([u8; N]),
}

// Nothing says that the input ends, so neither do its lines: whoever takes them counts them.
#[derive(Drop)]
pub struct Lines<R, const N: usize> {
    input: R,
}

impl<R: Read + Drop, const N: usize> Lines<R, N> {
    pub fn new(input: R) -> Self {
        Lines { input }
    }

    fn take_line(&mut self) -> io::Result<Option<Line<N>>> {
        let mut bytes = [0u8; N];
        let n = crate::read_full(&mut self.input, &mut bytes)?;
        Ok(match n {
            0 => None,
            _ if n < N => Some(Line::Cut(bytes)),
            _ => Some(Line::Whole(bytes)),
        })
    }
}

impl<R: Read + Drop, const N: usize> Iterator for Lines<R, N> {
    type Item = io::Result<Line<N>>;

    fn next(&mut self) -> Option<io::Result<Line<N>>> {
        self.take_line().transpose()
    }

    fn size_hint(&self) -> (usize, Option<usize>) {
        (0, None)
    }
}

// As the programs do whose lines are all whole.
pub fn print_cut(rt: &impl Print) -> io::Result<()> {
    println!(rt; "the last line is cut")
}
