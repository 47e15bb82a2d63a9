// Ported from crates/ferrowasp-stm32-critical/src/dshot_bank.rs of Eirik2020/ferro-wasp at commit 9cb8aca1a6, Copyright (c) 2026 Kaldstrand, under
// the Apache License, Version 2.0 (see NOTICE). Changed: ported to Rattle, on a state in lent slots, with a promise for each call. Each call refuses
// slices of other lengths and a lane above 3.
//
// The calls that make a bank and command it: demands, runs of special commands, and telemetry requests.

#![tactic(auto, unfolding(bank_slots_spec::specs::Called::answer_of, bank_slots_spec::specs::Called::bank_after, bank_slots_spec::specs::Outs::out_after))]

ghost use Rattle.std.specs.Prelude.{◌≡◌, true, if◌then◌else◌};
ghost use Rattle.dshot_reply_spec.specs.Refusals.{wrong_length};
ghost use Rattle.dshot_reply.specs.Refusals.{status_number};
ghost use Rattle.dshot_bank_spec.specs.State.{Buffers};
ghost use Rattle.dshot_bank_spec.specs.Commands.{from_lanes, is_running};
ghost use Rattle.dshot_bank_spec.specs.Calls as Call;
ghost use Rattle.bank_slots_spec.specs.Memory.{at};
ghost use Rattle.bank_slots_spec.specs.Load.{choice, timing_at, load};
ghost use Rattle.bank_slots_spec.specs.Store.{store};
ghost use Rattle.bank_slots_spec.specs.Moves.{Moves, on_core};
ghost use Rattle.bank_slots_spec.specs.Called.{Called, fit, sized, state_at, answer_of, number};
ghost use Rattle.bank_slots_spec.specs.Outs.{motor_slots, out_after};
ghost use Rattle.bank_slots_spec.specs.Arguments.{run_given};
ghost use Rattle.bank_slots_spec.specs.Parts.{demanded};

use crate::memory::{flag, joined_long, long_at, motor_in, put_long};
use crate::replies::stored_kind;
use crate::steps::{put_run, run_from, stop, values_at};
use crate::{
    BIDIRECTIONAL, FAULTED, LEASE_OVER, LEASE_STARTED, PER_LANE, REPLIES, REQUEST, REQUEST_SENT,
    RUN, SLOTS, VALUES,
};
use dshot::throttle_to_dshot;
use dshot_bank::commands::any_above;
use dshot_bank::{DSHOT_COMMAND_MAX, DshotMotor, LANES};
use dshot_reply::DshotReplyError;
use dshot_reply::refusals::Refusal;

// ---- a new bank

// Makes a new bank with a timing. The first lent buffer is current, and the second is spare.
pub fn from_lanes(timing: &[u16], bank: &mut [u16]) -> Result<(), Refusal>
    ensures value { status_number result ≡ (if fit bank.old (sized 4 timing.now) then 0 else wrong_length) }
    ensures bank_after { bank.new ≡ (if fit bank.old (sized 4 timing.now) then store (from_lanes 4 (timing_at (at timing.now))) else bank.old) }
{
    let state = bank.as_mut_array::<SLOTS>().ok_or(Refusal::WrongLength)?;
    let timing = timing.as_array::<4>().ok_or(Refusal::WrongLength)?;
    state.fill(0);
    // Each slot is read by itself. A host has often just written them one by one, and a read of all four together would wait for it.
    let [arr, zero_high, one_high, reply_sample_arr] = timing;
    state[0] = *arr;
    state[1] = *zero_high;
    state[2] = *one_high;
    state[3] = *reply_sample_arr;
    // No lane's window was ever read.
    let no_reply = stored_kind(Err(DshotReplyError::NoReply));
    for lane in 0..LANES {
        state[REPLIES + PER_LANE * lane] = no_reply;
    }
    Ok(())
}

// Switches to bidirectional DShot. It is meant for the time before the first frame, but a later call is not refused. Refused if a lane cannot receive
// replies.
pub fn enable_bidirectional(bank: &mut [u16], receives_replies: bool) -> Result<(), Refusal>
    ensures value { (b : Buffers) → status_number result ≡ number (answer_of (fit bank.old true) (state_at bank.old b) (Call.enable_bidirectional_call receives_replies)) }
    ensures called { (b : Buffers) → Called (fit bank.old true) (Call.enable_bidirectional_call receives_replies) b bank.old bank.new (status_number result) }
{
    let state = bank.as_mut_array::<SLOTS>().ok_or(Refusal::WrongLength)?;
    if !receives_replies {
        return Err(Refusal::RepliesUnsupported);
    }
    state[BIDIRECTIONAL] = 1;
    Ok(())
}

// ---- demands

pub fn command_stop(bank: &mut [u16]) -> Result<(), Refusal>
    ensures value { (b : Buffers) → status_number result ≡ number (answer_of (fit bank.old true) (state_at bank.old b) Call.command_stop_call) }
    ensures called { (b : Buffers) → Called (fit bank.old true) Call.command_stop_call b bank.old bank.new (status_number result) }
{
    let state = bank.as_mut_array::<SLOTS>().ok_or(Refusal::WrongLength)?;
    stop(state);
    Ok(())
}

// Inlined, because the compiler then knows from the test before it that each throttle is at most 2000.
#[inline(always)]
fn demand(state: &mut [u16; SLOTS], commands: &[u16; LANES], now_ms: u64, lease_duration_ms: u32)
    ensures { Moves (on_core (demanded commands.now now_ms lease_duration_ms)) state.old state.new }
{
    let [a, b, c, d] = *commands;
    // The four values are stored at once. A service reads them in one load, which would have to wait for several stores.
    put_long(
        state,
        VALUES,
        joined_long(
            throttle_to_dshot(a),
            throttle_to_dshot(b),
            throttle_to_dshot(c),
            throttle_to_dshot(d),
        ),
    );
    put_long(state, LEASE_STARTED, now_ms);
    put_long(state, LEASE_OVER, u64::from(lease_duration_ms) + 1);
}

// Requests the throttles of the four motors, each up to 2000, for a lease.
pub fn command_throttles(
    bank: &mut [u16],
    commands: &[u16],
    now_ms: u64,
    lease_duration_ms: u32,
) -> Result<(), Refusal>
    ensures value { (b : Buffers) → status_number result ≡ number (answer_of (fit bank.old (sized 4 commands.now)) (state_at bank.old b) (Call.command_throttles_call commands.now now_ms lease_duration_ms)) }
    ensures called { (b : Buffers) → Called (fit bank.old (sized 4 commands.now)) (Call.command_throttles_call commands.now now_ms lease_duration_ms) b bank.old bank.new (status_number result) }
{
    let state = bank.as_mut_array::<SLOTS>().ok_or(Refusal::WrongLength)?;
    let commands = commands.as_array::<LANES>().ok_or(Refusal::WrongLength)?;
    if flag(state[FAULTED]) {
        return Err(Refusal::BankFaulted);
    }
    if any_above(commands, DSHOT_COMMAND_MAX) {
        return Err(Refusal::ThrottleOutOfRange);
    }
    if !any_above(commands, 0) {
        stop(state);
        return Ok(());
    }
    demand(state, commands, now_ms, lease_duration_ms);
    Ok(())
}

// ---- runs of commands

#[tactic(auto, unfolding(bank_slots_spec::specs::Load::load), using(dshot_bank::proofs::LaneTests::any_is))]
fn is_running(state: &[u16; SLOTS]) -> bool
    ensures { result ≡ is_running (load state.now).core.demand }
{
    long_at(state, LEASE_OVER) != 0 || any_above(&values_at(state), 0)
}

// Queues a run of special-command frames for one motor, such as a spin direction change and save. The run takes four slots.
//
// Refused unless every motor is stopped with no command lease, so a command frame never replaces a throttle frame on a spinning motor.
pub fn command_special(bank: &mut [u16], motor: usize, sequence: &[u16]) -> Result<(), Refusal>
    ensures value { (b : Buffers) → status_number result ≡ number (answer_of (fit bank.old (sized 4 sequence.now)) (state_at bank.old b) (Call.command_special_call motor (run_given sequence.now))) }
    ensures called { (b : Buffers) → Called (fit bank.old (sized 4 sequence.now)) (Call.command_special_call motor (run_given sequence.now)) b bank.old bank.new (status_number result) }
{
    let state = bank.as_mut_array::<SLOTS>().ok_or(Refusal::WrongLength)?;
    let sequence = sequence.as_array::<4>().ok_or(Refusal::WrongLength)?;
    let motor = DshotMotor::from_index(motor).ok_or(Refusal::NoSuchMotor)?;
    if flag(state[FAULTED]) {
        return Err(Refusal::BankFaulted);
    }
    if is_running(state) {
        return Err(Refusal::MotorsRunning);
    }
    if state[RUN] != 0 {
        return Err(Refusal::CommandPending);
    }
    put_run(state, motor, run_from(sequence));
    Ok(())
}

// ---- telemetry requests

// Requests legacy UART telemetry from exactly one motor in the next frame that starts without a special command. A frame with a special command
// leaves the request.
pub fn request_telemetry(bank: &mut [u16], motor: usize) -> Result<(), Refusal>
    ensures value { (b : Buffers) → status_number result ≡ number (answer_of (fit bank.old true) (state_at bank.old b) (Call.request_telemetry_call motor)) }
    ensures called { (b : Buffers) → Called (fit bank.old true) (Call.request_telemetry_call motor) b bank.old bank.new (status_number result) }
{
    let state = bank.as_mut_array::<SLOTS>().ok_or(Refusal::WrongLength)?;
    let motor = DshotMotor::from_index(motor).ok_or(Refusal::NoSuchMotor)?;
    if flag(state[FAULTED]) {
        return Err(Refusal::BankFaulted);
    }
    if state[REQUEST] != 0 {
        return Err(Refusal::TelemetryPending);
    }
    state[REQUEST] = motor as u16 + 1;
    Ok(())
}

// Withdraws a telemetry request no frame has carried yet. The ESC manager has given up on it, so it must not reach an ESC later.
pub fn cancel_telemetry_request(bank: &mut [u16]) -> Result<(), Refusal>
    ensures value { (b : Buffers) → status_number result ≡ number (answer_of (fit bank.old true) (state_at bank.old b) Call.cancel_telemetry_request_call) }
    ensures called { (b : Buffers) → Called (fit bank.old true) Call.cancel_telemetry_request_call b bank.old bank.new (status_number result) }
{
    let state = bank.as_mut_array::<SLOTS>().ok_or(Refusal::WrongLength)?;
    state[REQUEST] = 0;
    Ok(())
}

// A motor in two slots: 1 and the lane. If there is none, 0 and 0.
fn choice_slots(slot: u16) -> [u16; 2]
    ensures { result ≡ motor_slots (choice slot) }
{
    match motor_in(slot) {
        Some(motor) => [1, motor as u16],
        None => [0, 0],
    }
}

// Takes the lane whose telemetry bit was included in the frame started by the most recent `service` call, in two slots.
pub fn take_telemetry_request_sent(bank: &mut [u16], out: &mut [u16]) -> Result<(), Refusal>
    ensures called { (b : Buffers) → Called (fit bank.old (sized 2 out.old)) Call.take_telemetry_request_sent b bank.old bank.new (status_number result) }
    ensures out_after { (b : Buffers) → out.new ≡ out_after (answer_of (fit bank.old (sized 2 out.old)) (state_at bank.old b) Call.take_telemetry_request_sent) out.old }
{
    let state = bank.as_mut_array::<SLOTS>().ok_or(Refusal::WrongLength)?;
    let out = out.as_mut_array::<2>().ok_or(Refusal::WrongLength)?;
    *out = choice_slots(state[REQUEST_SENT]);
    state[REQUEST_SENT] = 0;
    Ok(())
}
