// Ported from crates/ferrowasp-stm32-critical/src/dshot_bank.rs of Eirik2020/ferro-wasp at commit 9cb8aca1a6, Copyright (c) 2026 Kaldstrand, under
// the Apache License, Version 2.0 (see NOTICE). Changed: ported to Rattle, on a state in lent slots. Two lent buffers and a mark per lane stand for
// the exchanged buffers, so no spare can be missing.
//
// Sending a frame set.

ghost use Rattle.std.specs.Prelude.{◌≡◌, ℕ, ◌≤◌, true, not, [], take};
ghost use Rattle.std.specs.List.{position as first_place};
ghost use Rattle.dshot_bank_spec.specs.Lanes.{position};
ghost use Rattle.dshot.specs.Answers.{timing_of};
ghost use Rattle.dshot_bank_spec.specs.State.{Core, Bank, Buffers};
ghost use Rattle.dshot_bank_spec.specs.Commands.{next_command_frame};
ghost use Rattle.dshot_bank_spec.specs.Send.{exchange_refused, frame_started};
ghost use Rattle.dshot_bank_spec.specs.Service as Spec;
ghost use Rattle.bank_slots_spec.specs.Load.{load};
ghost use Rattle.bank_slots_spec.specs.Load as Load;
ghost use Rattle.bank_slots_spec.specs.Moves.{Moves, on_core};
ghost use Rattle.bank_slots_spec.specs.Handles.{Serves};
ghost use Rattle.bank_slots_spec.specs.Arguments.{taken};
ghost use Rattle.bank_slots_spec.specs.Parts.{run_stepped, marks_turned, carried_by, request_carried, in_flight};
ghost use Rattle.dshot_bank.specs.States.{motor_of, motor_at, choice_of};
ghost use Rattle.dshot_bank.specs.Sends.{motor_command_of};
ghost use Rattle.bank_slots.specs.Frames.{Sets, exchange_codes, refused_slots};

use crate::memory::{bump, flag, motor_in, put_long, put_word};
use crate::numbers::{EXCHANGE_BUFFER, LATCH_ORDERS, SECOND, STARTED_ORDERS, tell};
use crate::steps::{clear_run, latch_fault, put_run, run_at, values_at};
use crate::{
    BIDIRECTIONAL, BUSY, COMPLETION_MASK, FRAMES_STARTED, IN_SECOND, LANES_SLOTS, REQUEST,
    REQUEST_SENT, RUN, SERVICE_SLOTS, SLOTS, STARTED,
};
use dshot::{ChecksumKind, DshotTiming, MotorValues, packets_of_kind};
use dshot_bank::commands::any_above;
use dshot_bank::replies::LaneFlags;
use dshot_bank::send::{encode_lanes, one_lane};
use dshot_bank::service::{DshotServiceEvent, sent_event};
use dshot_bank::{DshotMotor, LANES, Slots};
use std::array;

// The next special-command frame: its motor and its command.
pub(crate) type FrameCommand = Option<(DshotMotor, u16)>;

// What is sent to each lane.
#[derive(Clone, Copy)]
pub(crate) struct FrameSet {
    pub values: MotorValues,
    pub telemetry_lane: Option<usize>,
}

// ---- the run of commands

// The next special-command frame. If there is none, or a throttle demand has cancelled it, the answer is none. A spent run is cleared.
fn next_command_frame(state: &mut [u16; SLOTS]) -> FrameCommand
    ensures result_value { motor_command_of result ≡ (next_command_frame (load state.old).core).command }
    ensures moves { Moves (on_core run_stepped) state.old state.new }
{
    if any_above(&values_at(state), 0) {
        clear_run(state);
        return None;
    }
    let motor = motor_in(state[RUN])?;
    let mut run = run_at(state);
    let Some(command) = run.next_value() else {
        clear_run(state);
        return None;
    };
    put_run(state, motor, run);
    Some((motor, command))
}

// ---- what is sent

// A special command needs the telemetry bit on its own lane, so a pending telemetry request waits for the next ordinary frame.
#[tactic(auto, unfolding(bank_slots_spec::specs::Load::load))]
fn frame_set(state: &[u16; SLOTS], command: FrameCommand) -> FrameSet
    ensures { Sets result (load state.now).core (motor_command_of command) }
{
    match command {
        Some((motor, value)) => FrameSet {
            values: one_lane(motor, value),
            telemetry_lane: Some(motor.index()),
        },
        None => FrameSet {
            values: values_at(state),
            telemetry_lane: motor_in(state[REQUEST]).map(|motor| motor.index()),
        },
    }
}

#[tactic(auto, unfolding(bank_slots_spec::specs::Load::load))]
fn timing_at(state: &[u16; SLOTS]) -> DshotTiming
    ensures { timing_of result ≡ (load state.now).core.timing }
{
    DshotTiming {
        arr: state[0],
        zero_high: state[1],
        one_high: state[2],
        reply_sample_arr: state[3],
    }
}

#[tactic(auto, unfolding(bank_slots_spec::specs::Load::load))]
fn marks_at(state: &[u16; SLOTS]) -> LaneFlags
    ensures { result ≡ (load state.now).core.frame.in_second }
{
    array::from_fn(|lane| flag(state[IN_SECOND + lane]))
}

// ---- the exchange

// The place of the first lane that did not take its buffer.
fn first_off(lanes: &[u16; LANES_SLOTS]) -> Option<usize>
    ensures { result ≡ first_place (λ (taken : ℕ). not (Load.flag taken)) (take 4 lanes.now) }
{
    lanes[..LANES].iter().position(|taken| !flag(*taken))
}

// The first lane that did not take its buffer.
fn first_refused(lanes: &[u16; LANES_SLOTS]) -> Option<DshotMotor>
    ensures { choice_of result ≡ motor_at (position not (taken lanes.now)) }
{
    DshotMotor::from_index(first_off(lanes)?)
}

// Turns the marks of the first lanes: what they sent is now spare, and their spare is sent.
fn turn_marks(state: &mut [u16; SLOTS], turned: usize)
    requires { turned ≤ 4 }
    ensures { Moves (on_core (marks_turned turned)) state.old state.new }
{
    for mark in state[IN_SECOND..IN_SECOND + turned].iter_mut() {
        *mark = u16::from(!flag(*mark));
    }
}

// A lane refuses its buffer. The lanes before it have turned.
fn exchange_refused(state: &mut [u16; SLOTS], motor: DshotMotor)
    ensures { Moves (on_core (λ (c : Core). (exchange_refused 4 (motor_of motor) c).core)) state.old state.new }
{
    turn_marks(state, motor.index());
    latch_fault(state, false);
}

// The orders to give each lane its spare. If a lane sends from the first buffer, its spare is the second.
#[tactic(auto, unfolding(bank_slots_spec::specs::Load::load))]
fn exchanges(state: &[u16; SLOTS]) -> [u16; LANES]
    ensures { result ≡ exchange_codes (load state.now).core.frame.in_second }
{
    array::from_fn(|lane| {
        let order = EXCHANGE_BUFFER + lane as u16;
        if flag(state[IN_SECOND + lane]) {
            order
        } else {
            order + SECOND
        }
    })
}

// Puts a frame set in flight. The request that it carries is handled apart.
fn mark_in_flight(state: &mut [u16; SLOTS], now_ms: u64)
    ensures { Moves (on_core (in_flight now_ms)) state.old state.new }
{
    put_long(state, STARTED, now_ms);
    put_word(state, COMPLETION_MASK, 0);
    state[BUSY] = 1;
    bump(state, FRAMES_STARTED);
}

// If a request is pending, the frame carries it: it is sent and no longer pending.
fn carry(state: &mut [u16; SLOTS])
    ensures { Moves (on_core (request_carried true)) state.old state.new }
{
    let request = state[REQUEST];
    if request != 0 {
        state[REQUEST] = 0;
        state[REQUEST_SENT] = request;
    }
}

// An ordinary frame set carries the pending telemetry request.
fn frame_started(state: &mut [u16; SLOTS], now_ms: u64, ordinary: bool)
    ensures { Moves (on_core (λ (c : Core). frame_started 4 now_ms (carried_by ordinary c) c)) state.old state.new }
{
    turn_marks(state, LANES);
    mark_in_flight(state, now_ms);
    if ordinary {
        carry(state);
    }
}

// ---- the answer of a service

// The answer if a lane refuses its buffer: the exchanges up to that lane, and the orders of a latched fault. Each number of exchanges has a line of its
// own. Otherwise the archive would need `memcpy`.
fn tell_refused(out: &mut [u16; SERVICE_SLOTS], motor: DshotMotor, exchanges: &[u16; LANES])
    ensures { out.new ≡ refused_slots (motor_of motor) exchanges.now }
{
    let event = DshotServiceEvent::Faulted as u16;
    match motor {
        DshotMotor::Motor1 => tell(out, event, &exchanges[..1], &LATCH_ORDERS),
        DshotMotor::Motor2 => tell(out, event, &exchanges[..2], &LATCH_ORDERS),
        DshotMotor::Motor3 => tell(out, event, &exchanges[..3], &LATCH_ORDERS),
        DshotMotor::Motor4 => tell(out, event, &exchanges[..4], &LATCH_ORDERS),
    }
}

pub(crate) fn send(
    state: &mut [u16; SLOTS],
    now_ms: u64,
    lease_expired: bool,
    lanes: &[u16; LANES_SLOTS],
    first: &mut Slots,
    second: &mut Slots,
    out: &mut [u16; SERVICE_SLOTS],
)
    ensures { Serves (λ (k : Bank) (b : Buffers). Spec.sending 4 now_ms (taken lanes.now) [] [] [] [] b lease_expired k.core k.replies) (record { first = first.entry.now; second = second.old }) (record { first = first.exit.now; second = second.new }) state.old state.new out.new }
{
    let next = next_command_frame(state);
    let ordinary = next.is_none();
    let set = frame_set(state, next);
    let kind = ChecksumKind::sent(flag(state[BIDIRECTIONAL]));
    let packets = packets_of_kind(kind, set.values, set.telemetry_lane);
    let duties = encode_lanes(first, second, marks_at(state), packets, timing_at(state));
    if let Some(motor) = first_refused(lanes) {
        tell_refused(out, motor, &exchanges(state));
        exchange_refused(state, motor);
        return;
    }
    let event = sent_event(true, lease_expired);
    tell(out, event as u16, &exchanges(state), &STARTED_ORDERS);
    // Each slot is stored by itself, because `copy_from_slice` tests whether the two parts overlap.
    let [a, b, c, d] = duties;
    out[11] = a;
    out[12] = b;
    out[13] = c;
    out[14] = d;
    frame_started(state, now_ms, ordinary);
}
