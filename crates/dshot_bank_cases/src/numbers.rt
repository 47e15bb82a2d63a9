// Reads the numbers of a line.

use arrayvec::ArrayVec;
use case_text::numbers::{Spaces, flag, read_words};

// The most numbers that a line has: eighteen, and two for each of 700 runs.
const MOST_NUMBERS: usize = 1418;

pub type Numbers = ArrayVec<u64, MOST_NUMBERS>;

// Reads numbers with one space between them. Nothing else may stand there.
pub(crate) fn read_line(line: &[u8], numbers: &mut Numbers) -> Option<()> {
    read_words(line, Spaces::One, numbers)
}

// A flag for each lane.
pub(crate) fn flags(numbers: [u64; 4]) -> Option<[bool; 4]> {
    numbers.try_map(|number| flag(number).ok_or(())).ok()
}
