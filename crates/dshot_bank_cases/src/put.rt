// Prints parts of a line.

use arrayvec::ArrayVec;
use itoa::Buffer;
use std::io;
use std::io::{Error, Stdout, Write};

// What is printed is gathered, so that a list takes few writes. The room is an array, so that no memory is asked for.
const MOST_PRINTED: usize = 65536;

// What is gathered, where it is written, and why the first write that failed did. A list goes on after a failed write.
#[derive(Drop)]
pub struct Out {
    to: Stdout,
    gathered: ArrayVec<u8, MOST_PRINTED>,
    error: Option<Error>,
}

impl Out {
    pub(crate) fn new(to: Stdout) -> Self {
        Out {
            to,
            gathered: ArrayVec::new(),
            error: None,
        }
    }

    fn write_gathered(&mut self) {
        if let Err(error) = self.to.write_all(self.gathered.as_slice()) {
            self.error = self.error.or(Some(error));
        }
        self.gathered.clear();
    }

    fn gather(&mut self, bytes: &[u8]) {
        for byte in bytes {
            if self.gathered.is_full() {
                self.write_gathered();
            }
            let _fits = self.gathered.try_push(*byte);
        }
    }

    // Writes what is left. If a write failed, the answer says why.
    pub(crate) fn finish(&mut self) -> io::Result<()> {
        self.write_gathered();
        self.error.map_or(Ok(()), Err)
    }
}

impl Write for Out {
    fn write(&mut self, bytes: &[u8]) -> io::Result<usize> {
        self.gather(bytes);
        Ok(bytes.len())
    }

    // All bytes are taken at once, so nothing is left to try again.
    fn write_all(&mut self, bytes: &[u8]) -> io::Result<()> {
        self.gather(bytes);
        Ok(())
    }

    // What is gathered is written when the room is full, and by `finish`.
    fn flush(&mut self) -> io::Result<()> {
        Ok(())
    }
}

// With `write!` a long list took 1.7 times as long.
pub(crate) fn numbers(out: &mut impl Write, numbers: &[u64]) -> io::Result<()> {
    for number in numbers {
        out.write_all(b" ")?;
        out.write_all(Buffer::new().format(*number).as_bytes())?;
    }
    Ok(())
}

// The bar between two parts. The space after it comes with the next part's first number.
pub(crate) fn bar(out: &mut impl Write) -> io::Result<()> {
    write!(out, " |")
}

// The space after a bar, if the part has no number.
pub(crate) fn empty(out: &mut impl Write) -> io::Result<()> {
    write!(out, " ")
}
