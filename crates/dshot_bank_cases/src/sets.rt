// Makes the calls of codes 18 to 20. They set slots and counts, which no call of the library does.

use crate::outcome::{Outcome, answered};
use crate::slots::Buffers;
use dshot_bank::{DshotBank, DshotStats, LANES};

// The slots of a buffer that the bank uses.
const USED_SLOTS: usize = 64;

// 18 BUFFER SLOT VALUE
pub(crate) fn slot(given: &[u64], bank: DshotBank, buffers: &mut Buffers) -> Option<Outcome> {
    let &[buffer, slot, value] = given else {
        return None;
    };
    let value = u16::try_from(value).ok()?;
    let buffer = buffers.get_mut(buffer as usize)?;
    *buffer[..USED_SLOTS].get_mut(slot as usize)? = value;
    Some(answered(&[], bank))
}

// 19 COUNT*11
pub(crate) fn stats(given: &[u64], mut bank: DshotBank) -> Option<Outcome> {
    let counts = given.as_array::<11>()?.try_map(u32::try_from).ok()?;
    let [
        frames_started,
        frames_completed,
        first,
        second,
        third,
        fourth,
        busy_skips,
        lease_expiries,
        frame_timeouts,
        dma_faults,
        spurious_interrupts,
    ] = counts;
    bank.core.stats = DshotStats {
        frames_started,
        frames_completed,
        lane_completions: [first, second, third, fourth],
        busy_skips,
        lease_expiries,
        frame_timeouts,
        dma_faults,
        spurious_interrupts,
    };
    Some(answered(&[], bank))
}

// 20 VALID*4 INVALID*4 CONSECUTIVE_INVALID*4
pub(crate) fn reply_stats(given: &[u64], mut bank: DshotBank) -> Option<Outcome> {
    let counts = given.as_array::<12>()?.try_map(u32::try_from).ok()?;
    let [valid, invalid, consecutive] = counts.as_chunks::<LANES>().0 else {
        return None;
    };
    let counts = valid.iter().zip(invalid).zip(consecutive);
    for (lane, ((valid, invalid), consecutive)) in bank.replies.iter_mut().zip(counts) {
        lane.valid = *valid;
        lane.invalid = *invalid;
        lane.consecutive_invalid = *consecutive;
    }
    Some(answered(&[], bank))
}
