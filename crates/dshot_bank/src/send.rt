// Ported from crates/ferrowasp-stm32-critical/src/dshot_bank.rs of Eirik2020/ferro-wasp at commit 9cb8aca1a6, Copyright (c) 2026 Kaldstrand, under
// the Apache License, Version 2.0 (see NOTICE). Changed: ported to Rattle. Two lent buffers and a mark per lane stand for the exchanged buffers, so
// no spare can be missing.
//
// Latching a fault, and sending a frame set.

ghost use Rattle.std.specs.Prelude.{◌≡◌, ◌<◌, not, length, replicate, slice_set, if◌then◌else◌};
ghost use Rattle.dshot_reply_spec.specs.Answer.{given, refused};
ghost use Rattle.dshot_reply_spec.specs.Refusals.{wrong_length};
ghost use Rattle.dshot_reply.specs.Answers.{answer};
ghost use Rattle.dshot_spec.specs.Sequence.{sequence_of};
ghost use Rattle.dshot.specs.Answers.{words, timing_of, encode_error_number};
ghost use Rattle.std.specs.List as First;
ghost use Rattle.dshot_bank_spec.specs.Lanes.{position};
ghost use Rattle.dshot_bank_spec.specs.State.{Buffers};
ghost use Rattle.dshot_bank_spec.specs.With.{with_frame, with_in_second};
ghost use Rattle.dshot_bank_spec.specs.Steps.{slots_fit};
ghost use Rattle.dshot_bank_spec.specs.Commands.{next_of_run, next_command_frame};
ghost use Rattle.dshot_bank_spec.specs.FrameSet.{frame_set, first_duties, write_spare, encode_lanes};
ghost use Rattle.dshot_bank_spec.specs.Send.{count_fault, latch_fault, turn_marks, carry, exchange_refused, frame_started, exchange_buffers, send_requested, sent_buffers};
ghost use Rattle.dshot_bank.specs.States.{motor_of, motor_at, choice_of, telemetry_of, command_sequence_of, stats_of, frame_of, core_of};
ghost use Rattle.dshot_bank.specs.Sends.{next_frame_of, motor_command_of, frame_set_of, Sends};

use crate::commands::any_requested;
use crate::orders::Orders;
use crate::replies::LaneFlags;
use crate::{Core, DshotMotor, DshotStats, LANES, MotorRun, Requests, Slots};
use dshot::{
    COMPARE_DMA_SLOTS, ChecksumKind, DshotPacket, DshotTiming, MotorPackets, MotorValues,
    encode_compare_sequence, packets_of_kind,
};
use dshot_reply::refusals::WrongLength;
use std::array;

// The next special-command frame, and the run that is left.
#[derive(Clone, Copy, Default)]
pub(crate) struct NextFrame {
    pub command: Option<(DshotMotor, u16)>,
    pub left: Option<MotorRun>,
}

// What is sent to each lane, and the telemetry request that the set carries.
#[derive(Clone, Copy)]
pub(crate) struct FrameSet {
    pub values: MotorValues,
    pub telemetry_lane: Option<usize>,
    pub telemetry_request: Option<DshotMotor>,
}

// The first duties if a frame set started, with the orders and the core after it.
#[derive(Clone, Copy)]
pub(crate) struct Sent {
    pub first_duties: Option<MotorValues>,
    pub orders: Orders,
    pub core: Core,
}

// An event of an interrupt, or of a service that sends nothing, with the orders and the core after it.
#[derive(Clone, Copy)]
pub(crate) struct Handled<E> {
    pub event: E,
    pub orders: Orders,
    pub core: Core,
}

// ---- a fault

impl DshotStats {
    fn count_fault(mut self, faulted: bool, spurious: bool) -> Self
        ensures { stats_of result ≡ count_fault faulted spurious (stats_of self) }
    {
        if !faulted {
            self.dma_faults = self.dma_faults.wrapping_add(1);
        }
        if spurious {
            self.spurious_interrupts = self.spurious_interrupts.wrapping_add(1);
        }
        self
    }
}

impl Core {
    pub(crate) fn handled<E: Copy>(self, event: E, orders: Orders) -> Handled<E>
        ensures { result ≡ record { event = event; orders = orders; core = self } }
    {
        Handled {
            event,
            orders,
            core: self,
        }
    }

    // Latches a fault. Its orders are `Orders::latched`.
    #[tactic(auto, unfolding(dshot_bank_spec::specs::Send::latch_fault, dshot_bank_spec::specs::Commands::command_stop))]
    pub(crate) fn latch_fault(mut self, spurious: bool) -> Self
        ensures { core_of result ≡ latch_fault 4 spurious (core_of self) }
    {
        self.stats = self.stats.count_fault(self.frame.faulted, spurious);
        self.frame.faulted = true;
        self.frame.busy = false;
        self.frame.receiving = false;
        self.frame.replies_waiting = false;
        self.requests = Requests::default();
        self.demand = self.demand.stopped();
        self
    }
}

// ---- what is sent

// The next frame of a run, and what is left of it. A spent run is cleared.
fn next_of_run(run: Option<MotorRun>) -> NextFrame
    ensures { next_frame_of result ≡ next_of_run (command_sequence_of run) }
{
    let Some(mut run) = run else {
        return NextFrame::default();
    };
    let Some(command) = run.sequence.next_value() else {
        return NextFrame::default();
    };
    NextFrame {
        command: Some((run.motor, command)),
        left: Some(run),
    }
}

// The values with one lane's command.
pub fn one_lane(motor: DshotMotor, command: u16) -> MotorValues
    ensures { result ≡ slice_set (replicate 4 0) (motor_of motor) command }
{
    let mut values = [0; LANES];
    // Each lane has a line of its own, because a known place stays in a register.
    match motor {
        DshotMotor::Motor1 => values[0] = command,
        DshotMotor::Motor2 => values[1] = command,
        DshotMotor::Motor3 => values[2] = command,
        DshotMotor::Motor4 => values[3] = command,
    }
    values
}

impl Core {
    // The next special-command frame. If there is none, or a throttle demand has cancelled it, the answer is none.
    #[tactic(auto, unfolding(dshot_bank_spec::specs::Commands::next_command_frame))]
    fn next_command_frame(self) -> NextFrame
        ensures { next_frame_of result ≡ next_command_frame (core_of self) }
    {
        if any_requested(self.demand.requested_values) {
            return NextFrame::default();
        }
        next_of_run(self.requests.command_sequence)
    }

    // A special command needs the telemetry bit on its own lane, so a pending telemetry request waits for the next frame without one.
    fn frame_set(self, command: Option<(DshotMotor, u16)>) -> FrameSet
        ensures { frame_set_of result ≡ frame_set 4 (core_of self) (motor_command_of command) }
    {
        let requested = self.demand.requested_values;
        match command {
            Some((motor, command)) => FrameSet {
                values: one_lane(motor, command),
                telemetry_lane: Some(motor.index()),
                telemetry_request: None,
            },
            None => FrameSet {
                values: requested,
                telemetry_lane: self.requests.telemetry_request.map(|motor| motor.index()),
                telemetry_request: self.requests.telemetry_request,
            },
        }
    }
}

// ---- sequences

// Writes the sequence of a packet into a lane's part of a spare, and returns its first duty. The part has the right length, so nothing is refused.
fn encode(packet: DshotPacket, timing: DshotTiming, part: &mut [u16]) -> u16
    requires { length part.old ≡ 16 }
    ensures value { result ≡ (sequence_of (timing_of timing) packet.0).first }
    ensures part_after { part.new ≡ (sequence_of (timing_of timing) packet.0).slots }
{
    encode_compare_sequence(packet, timing, part).unwrap()
}

// Writes a lane's sequence into its spare. If the lane sends from the second buffer, its spare is the first.
fn write_spare(
    first: &mut Slots,
    second: &mut Slots,
    in_second: bool,
    lane: usize,
    packet: DshotPacket,
    timing: DshotTiming,
) -> u16
    requires { lane < 4 }
    ensures value { result ≡ (sequence_of (timing_of timing) packet.0).first }
    ensures fact { ◌≡◌ {A = Buffers} (record { first = first.exit.now; second = second.new }) (write_spare in_second lane (sequence_of (timing_of timing) packet.0).slots (record { first = first.entry.now; second = second.old })) }
{
    let from = COMPARE_DMA_SLOTS * lane;
    let to = from + COMPARE_DMA_SLOTS;
    if in_second {
        encode(packet, timing, &mut first[from..to])
    } else {
        encode(packet, timing, &mut second[from..to])
    }
}

// Writes every lane's sequence into its spare, and returns the first duties. The bank in slots calls it too.
pub fn encode_lanes(
    first: &mut Slots,
    second: &mut Slots,
    in_second: LaneFlags,
    packets: MotorPackets,
    timing: DshotTiming,
) -> MotorValues
    ensures value { result ≡ first_duties 4 (timing_of timing) (words packets) }
    ensures fact { ◌≡◌ {A = Buffers} (record { first = first.exit.now; second = second.new }) (encode_lanes 4 (timing_of timing) in_second (words packets) (record { first = first.entry.now; second = second.old })) }
{
    let mut duties = [0; LANES];
    for lane in 0..LANES {
        duties[lane] = write_spare(first, second, in_second[lane], lane, packets[lane], timing);
    }
    duties
}

// The same for any two buffers. If one has another length, the call is refused and writes nothing.
pub fn encode_spares(
    first: &mut [u16],
    second: &mut [u16],
    in_second: LaneFlags,
    packets: MotorPackets,
    timing: DshotTiming,
) -> Result<MotorValues, WrongLength>
    ensures value { answer (λ d. d) encode_error_number result ≡ (if slots_fit 4 (length first.old) (length second.old) then given (first_duties 4 (timing_of timing) (words packets)) else refused wrong_length) }
    ensures fact { ◌≡◌ {A = Buffers} (record { first = first.exit.now; second = second.new }) (if slots_fit 4 (length first.entry.now) (length second.old) then encode_lanes 4 (timing_of timing) in_second (words packets) (record { first = first.entry.now; second = second.old }) else record { first = first.entry.now; second = second.old }) }
{
    let first: &mut Slots = first.as_mut_array().ok_or(WrongLength)?;
    let second: &mut Slots = second.as_mut_array().ok_or(WrongLength)?;
    Ok(encode_lanes(first, second, in_second, packets, timing))
}

// ---- the exchange

fn first_off(flags: LaneFlags) -> Option<usize>
    ensures { result ≡ First.position not flags }
{
    flags.iter().position(|flag| !*flag)
}

// The first motor whose lane did not take its buffer.
fn first_refused(taken: LaneFlags) -> Option<DshotMotor>
    ensures { choice_of result ≡ motor_at (position not taken) }
{
    DshotMotor::from_index(first_off(taken)?)
}

// Turns the marks of the first lanes.
#[tactic(auto, unfolding(dshot_spec::specs::Tabulate::tabulate))]
fn turn_marks(turned: usize, in_second: LaneFlags) -> LaneFlags
    ensures { result ≡ turn_marks 4 turned in_second }
{
    array::from_fn(|lane| in_second[lane] ^ (lane < turned))
}

impl Requests {
    // If the frame carries a request, the request is sent and no longer pending.
    fn carrying(self, request: Option<DshotMotor>) -> Self
        ensures result_value { telemetry_of result ≡ carry (choice_of request) (telemetry_of self) }
        ensures command_sequence_value { result.command_sequence ≡ self.command_sequence }
    {
        if request.is_some() {
            Requests {
                telemetry_request: None,
                telemetry_request_sent: request,
                ..self
            }
        } else {
            self
        }
    }
}

impl Core {
    fn marks_turned(mut self, turned: usize) -> Self
        ensures { core_of result ≡ with_frame (with_in_second (turn_marks 4 turned self.frame.in_second) (frame_of self.frame)) (core_of self) }
    {
        self.frame.in_second = turn_marks(turned, self.frame.in_second);
        self
    }

    // A motor refuses its buffer. The lanes before it have turned.
    #[tactic(auto, unfolding(dshot_bank_spec::specs::Send::exchange_refused, dshot_spec::specs::Tabulate::tabulate))]
    fn exchange_refused(self, motor: DshotMotor) -> Sent
        ensures { Sends result (exchange_refused 4 (motor_of motor) (core_of self)) }
    {
        let core = self.marks_turned(motor.index()).latch_fault(false);
        Sent {
            first_duties: None,
            orders: Orders::refused(motor),
            core,
        }
    }

    #[tactic(auto, unfolding(dshot_bank_spec::specs::Send::frame_started, dshot_spec::specs::Tabulate::tabulate))]
    fn frame_started(self, now_ms: u64, request: Option<DshotMotor>) -> Self
        ensures { core_of result ≡ frame_started 4 now_ms (choice_of request) (core_of self) }
    {
        let mut core = self.marks_turned(LANES);
        core.frame.frame_started_ms = now_ms;
        core.frame.completion_mask = 0;
        core.frame.busy = true;
        core.stats.frames_started = core.stats.frames_started.wrapping_add(1);
        core.requests = core.requests.carrying(request);
        core
    }

    fn exchange_buffers(
        self,
        now_ms: u64,
        taken: LaneFlags,
        request: Option<DshotMotor>,
        duties: MotorValues,
    ) -> Sent
        ensures { Sends result (exchange_buffers 4 now_ms taken (choice_of request) duties (core_of self)) }
    {
        if let Some(motor) = first_refused(taken) {
            return self.exchange_refused(motor);
        }
        Sent {
            first_duties: Some(duties),
            orders: Orders::started(),
            core: self.frame_started(now_ms, request),
        }
    }

    #[tactic(auto, unfolding(dshot_bank_spec::specs::Send::send_requested))]
    pub(crate) fn send_requested(
        mut self,
        now_ms: u64,
        taken: LaneFlags,
        first: &mut Slots,
        second: &mut Slots,
    ) -> Sent
        ensures sends { Sends result (send_requested 4 now_ms taken (core_of self)) }
        ensures fact { ◌≡◌ {A = Buffers} (record { first = first.exit.now; second = second.new }) (sent_buffers 4 (core_of self) (record { first = first.entry.now; second = second.old })) }
    {
        let next = self.next_command_frame();
        let set = self.frame_set(next.command);
        let kind = ChecksumKind::sent(self.frame.bidirectional);
        let packets = packets_of_kind(kind, set.values, set.telemetry_lane);
        let duties = encode_lanes(first, second, self.frame.in_second, packets, self.timing);
        self.requests.command_sequence = next.left;
        self.exchange_buffers(now_ms, taken, set.telemetry_request, duties)
    }
}
