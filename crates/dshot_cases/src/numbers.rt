// Reads the numbers of a line.

use arrayvec::ArrayVec;
use case_text::numbers::{Spaces, read_words};

// The most numbers that a record has: seven, and two for each of 512 runs.
const MOST_NUMBERS: usize = 1031;

pub type Numbers = ArrayVec<u64, MOST_NUMBERS>;

// Reads the numbers before the comment, with spaces between them. No other byte may stand there.
pub(crate) fn read_line(line: &[u8], numbers: &mut Numbers) -> Option<()> {
    let record = line.split(|byte| *byte == b'#').next()?;
    read_words(record, Spaces::Any, numbers)
}
