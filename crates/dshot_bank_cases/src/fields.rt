// Prints the fields of a bank.

use crate::part::of_motor;
use crate::{counts, put, replies};
use case_text::structs::{of_run, of_timing};
use dshot_bank::{Demand, DshotBank, Frame, MotorRun, Requests};
use std::io;
use std::io::Write;

// The last number is 0 if there is no lease. Otherwise it is 1, and the duration follows.
fn put_demand(out: &mut impl Write, demand: Demand) -> io::Result<()> {
    put::numbers(out, &demand.requested_values.map(u64::from))?;
    put::numbers(out, &[demand.lease_started_ms])?;
    match demand.lease_duration_ms {
        None => put::numbers(out, &[0]),
        Some(duration) => put::numbers(out, &[1, duration]),
    }
}

// The last number is 0 if there is no run. Otherwise the motor and the run follow.
fn put_requests(out: &mut impl Write, requests: Requests) -> io::Result<()> {
    let asked = of_motor(requests.telemetry_request);
    let sent = of_motor(requests.telemetry_request_sent);
    put::numbers(out, &[asked, sent])?;
    let Some(MotorRun { motor, sequence }) = requests.command_sequence else {
        return put::numbers(out, &[0]);
    };
    put::numbers(out, &[of_motor(Some(motor))])?;
    put::numbers(out, &of_run(sequence))
}

fn of_frame(frame: Frame) -> [u64; 7] {
    [
        frame.frame_started_ms,
        u64::from(frame.completion_mask),
        u64::from(frame.busy),
        u64::from(frame.faulted),
        u64::from(frame.bidirectional),
        u64::from(frame.receiving),
        u64::from(frame.replies_waiting),
    ]
}

// The replies and their counts are printed as the bank's own calls show them. The last numbers are, for each lane, the buffer from which it is sending.
pub(crate) fn put_fields(out: &mut impl Write, bank: DshotBank) -> io::Result<()> {
    let core = bank.core;
    // No call on a bank changes the timing. It is printed so that a call that changed it would be seen.
    put::numbers(out, &of_timing(core.timing))?;
    put_demand(out, core.demand)?;
    put_requests(out, core.requests)?;
    put::numbers(out, &of_frame(core.frame))?;
    put::numbers(
        out,
        replies::of_taken(bank.take_replies().answer).as_slice(),
    )?;
    put::numbers(out, &counts::of_stats(core.stats))?;
    put::numbers(
        out,
        counts::of_reply_stats(bank.reply_stats()).as_flattened(),
    )?;
    put::numbers(out, &core.frame.in_second.map(u64::from))
}
