// The counts of a bank as numbers of a line.

use dshot_bank::DshotStats;
use dshot_bank::replies::DshotReplyStats;

pub(crate) fn of_stats(stats: DshotStats) -> [u64; 11] {
    let [first, second, third, fourth] = stats.lane_completions;
    [
        stats.frames_started,
        stats.frames_completed,
        first,
        second,
        third,
        fourth,
        stats.busy_skips,
        stats.lease_expiries,
        stats.frame_timeouts,
        stats.dma_faults,
        stats.spurious_interrupts,
    ]
    .map(u64::from)
}

pub(crate) fn of_reply_stats(stats: DshotReplyStats) -> [[u64; 4]; 3] {
    [
        stats.valid.map(u64::from),
        stats.invalid.map(u64::from),
        stats.consecutive_invalid.map(u64::from),
    ]
}
