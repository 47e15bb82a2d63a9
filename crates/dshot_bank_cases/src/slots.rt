// The two sequence buffers that are lent, and the slots of them that a call changed.

use crate::put;
use std::io;
use std::io::Write;

// The slots of a buffer: more than the bank takes, so that a list can lend too many.
pub const ROOM: usize = 80;

// The first buffer, and the second.
pub type Buffers = [[u16; ROOM]; 2];

pub(crate) fn zeros() -> Buffers {
    [[0; ROOM]; 2]
}

// Prints the buffer, the slot and the value of each slot that is not as before.
pub(crate) fn put_changed(
    out: &mut impl Write,
    before: &Buffers,
    after: &Buffers,
) -> io::Result<()> {
    if before == after {
        return put::empty(out);
    }
    for (buffer, (before, after)) in (0u64..).zip(before.iter().zip(after)) {
        for (slot, (before, after)) in (0u64..).zip(before.iter().zip(after)) {
            if before != after {
                put::numbers(out, &[buffer, slot, u64::from(*after)])?;
            }
        }
    }
    Ok(())
}
