// Replays records of throttles, of runs of commands and of leases, and the record of dshot.rs's constants.

use case_text::numbers::flag;
use case_text::structs::{of_run, run_of};
use dshot::DshotCommandSequence;

// 16 THROTTLE VALUE
pub(crate) fn throttle(fields: &[u64]) -> Option<bool> {
    let &[throttle, value] = fields else {
        return None;
    };
    let found = dshot::throttle_to_dshot(u16::try_from(throttle).ok()?);
    Some(u64::from(found) == value)
}

// 17 THROTTLE*4 VALUE*4
pub(crate) fn throttles(fields: &[u64]) -> Option<bool> {
    let (throttles, stored) = fields.split_first_chunk::<4>()?;
    let throttles = throttles.try_map(u16::try_from).ok()?;
    let stored = stored.as_array::<4>()?.try_map(u16::try_from).ok()?;
    Some(dshot::throttles_to_dshot(throttles) == stored)
}

// A step of a run gives 1 and its command, or 0 and 0.
fn of_step(value: Option<u16>) -> [u64; 2] {
    value.map_or([0, 0], |command| [1, u64::from(command)])
}

// 18 REVERSED (GIVEN COMMAND)*
pub(crate) fn run(fields: &[u64]) -> Option<bool> {
    let [reversed, steps @ ..] = fields else {
        return None;
    };
    let mut run = DshotCommandSequence::spin_direction(flag(*reversed)?);
    for step in steps.chunks(2) {
        if of_step(run.next_value()) != *step.as_array::<2>()? {
            return Some(false);
        }
    }
    Some(true)
}

// 22 RUN*4 GIVEN COMMAND RUN*4. A run is its two commands, its index and its repeats left. The last one is the run after the step.
pub(crate) fn step(fields: &[u64]) -> Option<bool> {
    let (before, stored) = fields.split_first_chunk::<4>()?;
    let (given, after) = stored.split_first_chunk::<2>()?;
    let after = after.as_array::<4>()?;
    // Its two commands have sixteen bits, or the record is unreadable.
    after[..2].as_array::<2>()?.try_map(u16::try_from).ok()?;
    let mut run = run_of(*before)?;
    let found = of_step(run.next_value());
    Some(found == *given && of_run(run) == *after)
}

// 19 STARTED DURATION NOW EXPIRED
pub(crate) fn lease(fields: &[u64]) -> Option<bool> {
    let &[started, duration, now, expired] = fields else {
        return None;
    };
    let found = dshot::command_lease_expired(started, u32::try_from(duration).ok()?, now);
    Some(found == flag(expired)?)
}

// 23 CONSTANT*12, in the source's order
pub(crate) fn constants(fields: &[u64]) -> Option<bool> {
    let stored = fields.as_array::<12>()?;
    let constants = [
        dshot::DSHOT_BITS as u64,
        dshot::RESET_SLOTS as u64,
        dshot::FRAME_SLOTS as u64,
        dshot::COMPARE_DMA_SLOTS as u64,
        u64::from(dshot::DSHOT_MAX_VALUE),
        u64::from(dshot::DSHOT_MIN_THROTTLE),
        u64::from(dshot::DSHOT_MAX_THROTTLE),
        u64::from(dshot::DSHOT600_BITRATE_HZ),
        u64::from(dshot::DSHOT_CMD_SAVE_SETTINGS),
        u64::from(dshot::DSHOT_CMD_SPIN_DIRECTION_NORMAL),
        u64::from(dshot::DSHOT_CMD_SPIN_DIRECTION_REVERSED),
        u64::from(dshot::DSHOT_COMMAND_REPEATS),
    ];
    Some(constants == *stored)
}

#[cfg(test)]
mod tests {
    use super::*;

    // A record is unreadable even if one of its numbers differs.
    #[test]
    fn unreadable_steps(rt: HostRuntime) {
        assert_eq!(rt; step(&[20, 12, 0, 0, 1, 21]), None);
        assert_eq!(rt; step(&[20, 12, 0, 0, 1, 21, 20, 12, 0, 255, 7]), None);
        assert_eq!(rt; step(&[20, 12, 0, 0, 1, 20, 65536, 12, 0, 255]), None);
        assert_eq!(rt; step(&[20, 12, 0, 0, 1, 21, 20, 12, 0, 255]), Some(false));
        assert_eq!(rt; step(&[20, 12, 0, 0, 1, 20, 20, 12, 0, 255]), Some(true));
    }
}
