// Makes the calls of codes 0 to 7. They make a bank and command it.

use crate::outcome::{Outcome, answered};
use crate::part::of_motor;
use case_text::answers::status;
use case_text::numbers::flag;
use case_text::structs::{run_of, timing_of};
use dshot_bank::DshotBank;

// 0 ARR ZERO_HIGH ONE_HIGH REPLY_SAMPLE_ARR
pub(crate) fn from_lanes(given: &[u64]) -> Option<Outcome> {
    let timing = timing_of(*given.as_array::<4>()?)?;
    Some(answered(&[], DshotBank::from_lanes(timing)))
}

// 1 RECEIVES
pub(crate) fn enable_bidirectional(given: &[u64], bank: DshotBank) -> Option<Outcome> {
    let &[receives] = given else {
        return None;
    };
    let enabled = bank.enable_bidirectional(flag(receives)?);
    Some(answered(&[status(enabled.answer)], enabled.bank))
}

// 2
pub(crate) fn command_stop(bank: DshotBank) -> Outcome {
    answered(&[0], bank.command_stop())
}

// 3 A B C D NOW LEASE
pub(crate) fn command_throttles(given: &[u64], bank: DshotBank) -> Option<Outcome> {
    let &[a, b, c, d, now_ms, lease_duration_ms] = given else {
        return None;
    };
    let commands = [a, b, c, d].try_map(u16::try_from).ok()?;
    let lease_duration_ms = u32::try_from(lease_duration_ms).ok()?;
    let throttled = bank.command_throttles(commands, now_ms, lease_duration_ms);
    Some(answered(&[status(throttled.answer)], throttled.bank))
}

// 4 MOTOR C0 C1 INDEX LEFT
pub(crate) fn command_special(given: &[u64], bank: DshotBank) -> Option<Outcome> {
    let [motor, run @ ..] = given else {
        return None;
    };
    let sequence = run_of(*run.as_array::<4>()?)?;
    let queued = bank.command_special(*motor as usize, sequence);
    Some(answered(&[status(queued.answer)], queued.bank))
}

// 5 MOTOR
pub(crate) fn request_telemetry(given: &[u64], bank: DshotBank) -> Option<Outcome> {
    let &[motor] = given else {
        return None;
    };
    let requested = bank.request_telemetry(motor as usize);
    Some(answered(&[status(requested.answer)], requested.bank))
}

// 6
pub(crate) fn cancel_telemetry_request(bank: DshotBank) -> Outcome {
    answered(&[0], bank.cancel_telemetry_request())
}

// 7
pub(crate) fn take_telemetry_request_sent(bank: DshotBank) -> Outcome {
    let taken = bank.take_telemetry_request_sent();
    answered(&[of_motor(taken.answer)], taken.bank)
}
