// Ported from crates/ferrowasp-stm32-critical/src/dshot_bank.rs of Eirik2020/ferro-wasp at commit 9cb8aca1a6, Copyright (c) 2026 Kaldstrand, under
// the Apache License, Version 2.0 (see NOTICE). Changed: ported to Rattle, with a promise for each call. The hardware's answers come with the calls,
// and the orders to the hardware leave in their results. Two lent buffers and a mark per lane stand for the exchanged buffers. A view of them is
// added. The calls take lanes as numbers, and refuse those above 3.
//
// The four-motor DShot bank's safety state machine, independent of the timers and DMA streams that put it on the wire.
//
// A bank owns every motor lane as one fault-containment unit: a command lease that stops the motors when it is not renewed, one-shot telemetry
// requests, frame completion that needs every lane's DMA, and a latched fault that forces all outputs low.
//
// In bidirectional mode a frame set has two phases. Once every lane has transmitted, the lanes turn around and sample their pins for the ESCs'
// replies; the set completes when every sample window has. The replies are decoded at the next `service`, outside the DMA interrupts. A missing
// or bad reply is counted, never a fault; a lane that cannot turn around, or a stream that never completes, faults the bank as a transmit fault
// does.
#![tactic(auto)]

ghost use Rattle.std.specs.Prelude.{◌≡◌};
ghost use Rattle.dshot_bank_spec.specs.Commands.{from_lanes, fallback_release_due};
ghost use Rattle.dshot_bank_spec.specs.Interrupt.{completion_bit};
ghost use Rattle.dshot.specs.Answers.{timing_of};
ghost use Rattle.dshot_bank.specs.States.{motor_of, motor_at, choice_of, bank_of};

use dshot::{COMPARE_DMA_SLOTS, DshotCommandSequence, DshotTiming, MotorValues};
use dshot_reply::REPLY_WINDOW_SAMPLES;

// The orders to the hardware.
pub mod orders;

// Demands, runs of commands and telemetry requests.
pub mod commands;

// Replies and their counts.
pub mod replies;

// Faults and frame sets.
pub mod send;

// The service of a bank.
pub mod service;

// The interrupts of a bank.
pub mod interrupt;

// Calls that only look.
pub mod looks;

pub const DSHOT_COMMAND_MAX: u16 = 2000;
// The longest the bank goes without a frame set. Each accepted motor command releases one at the control-loop rate; without commands - while
// disarmed, in guarded idle, or after the control loop stops - a fallback releases one at this period, so the ESCs always see frames and an
// unrenewed lease is always found.
pub const DSHOT_SERVICE_PERIOD_MS: u32 = 2;

pub const DSHOT_FRAME_TIMEOUT_MS: u32 = 1;

// The lanes of a bank.
pub const LANES: usize = 4;

// The slots of a lent buffer of sequences, and the samples of a lent buffer of captures: the lanes' parts, one behind the other.
pub const SLOTS: usize = COMPARE_DMA_SLOTS * LANES;

pub const SAMPLES: usize = REPLY_WINDOW_SAMPLES * LANES;

pub type Slots = [u16; SLOTS];

pub type Samples = [u16; SAMPLES];

// Whether the fallback must release the service: no frame set has started for a full service period. Times are wrapping milliseconds, so the
// answer holds across the counter's wrap.
#[tactic(auto, unfolding(dshot_bank_spec::specs::Commands::fallback_release_due))]
pub fn fallback_release_due(now_ms: u32, last_release_ms: u32) -> bool
    ensures { result ≡ fallback_release_due now_ms last_release_ms }
{
    now_ms.wrapping_sub(last_release_ms) >= DSHOT_SERVICE_PERIOD_MS
}

// Physical four-lane DShot bank output, before any airframe motor remap.
//
// `Motor1` here means physical timer/DMA lane 1. It must not be interpreted as Betaflight logical M1; the application performs that mapping
// separately.
#[derive(Clone, Copy, Debug, PartialEq, Eq)]
pub enum DshotMotor {
    Motor1,
    Motor2,
    Motor3,
    Motor4,
}

impl DshotMotor {
    pub const ALL: [DshotMotor; 4] = [
        DshotMotor::Motor1,
        DshotMotor::Motor2,
        DshotMotor::Motor3,
        DshotMotor::Motor4,
    ];

    pub fn index(self) -> usize
        ensures { result ≡ motor_of self }
    {
        self as usize
    }

    // The motor on zero-based lane `index`, the order motor commands use.
    pub fn from_index(index: usize) -> Option<Self>
        ensures { choice_of result ≡ motor_at index }
    {
        match index {
            0 => Some(DshotMotor::Motor1),
            1 => Some(DshotMotor::Motor2),
            2 => Some(DshotMotor::Motor3),
            3 => Some(DshotMotor::Motor4),
            _ => None,
        }
    }

    pub(crate) fn completion_bit(self) -> u32
        ensures { result ≡ completion_bit (motor_of self) }
    {
        1 << self.index()
    }
}

#[derive(Clone, Copy, Debug, Default, PartialEq, Eq)]
pub struct DshotStats {
    pub frames_started: u32,
    pub frames_completed: u32,
    pub lane_completions: [u32; LANES],
    pub busy_skips: u32,
    pub lease_expiries: u32,
    pub frame_timeouts: u32,
    pub dma_faults: u32,
    pub spurious_interrupts: u32,
}

// What the motors are asked to do.
#[derive(Clone, Copy, Default)]
pub struct Demand {
    pub requested_values: MotorValues,
    pub lease_started_ms: u64,
    // No call makes a lease that 32 bits don't hold: `lease-below` of `dshot_bank_spec`.
    pub lease_duration_ms: Option<u64>,
}

// Special-command frames still to send, for one motor. They are sent only while every throttle is zero. If a throttle demand is in force when a
// frame starts, it cancels them.
#[derive(Clone, Copy)]
pub struct MotorRun {
    pub motor: DshotMotor,
    pub sequence: DshotCommandSequence,
}

#[derive(Clone, Copy, Default)]
pub struct Requests {
    pub telemetry_request: Option<DshotMotor>,
    pub telemetry_request_sent: Option<DshotMotor>,
    pub command_sequence: Option<MotorRun>,
}

// In this order the fields leave no gap between them. A gap would be copied separately, and keep the struct out of registers.
#[derive(Clone, Copy, Default)]
pub struct Frame {
    // For each lane: if it is set, the lane sends from the second buffer, and the first is its spare.
    pub in_second: [bool; LANES],
    pub completion_mask: u32,
    pub frame_started_ms: u64,
    pub busy: bool,
    pub faulted: bool,
    // Inverted checksums and a receive phase per frame set.
    pub bidirectional: bool,
    // The current frame set has transmitted and is sampling replies.
    pub receiving: bool,
    // A receive window has completed and not been decoded yet.
    pub replies_waiting: bool,
    // The decoded replies have not been taken yet.
    pub replies_held: bool,
}

// All of the bank except the replies and their counts.
#[derive(Clone, Copy)]
pub struct Core {
    pub timing: DshotTiming,
    pub demand: Demand,
    pub requests: Requests,
    pub frame: Frame,
    pub stats: DshotStats,
}

// What a lane's window read as: the reading, or why there is none. It is the reader's `Result` in one level of cases, which takes eight bytes. A bank
// is passed by value, so a reply then stays in a register. With the `Result` a cycle without captures took 85 ns, and with this 82 ns.
#[derive(Clone, Copy)]
pub enum StoredReply {
    Erpm(u32),
    Temperature(u8),
    Voltage(u8),
    Current(u8),
    // The channel, and the value.
    Debug(u8, u8),
    StateEvent(u8),
    ExtendedTelemetryEnabled,
    NoReply,
    Overlong,
    InvalidSymbol,
    Checksum,
    ZeroPeriod,
}

// A lane's last reply, and its accounting.
#[derive(Clone, Copy)]
pub struct LaneReply {
    pub reply: StoredReply,
    pub valid: u32,
    pub invalid: u32,
    // Missing or bad replies since the lane's last valid one.
    pub consecutive_invalid: u32,
}

#[derive(Clone, Copy)]
pub struct DshotBank {
    pub core: Core,
    pub replies: [LaneReply; LANES],
}

// What a call without orders answers, with the bank after it.
#[derive(Clone, Copy)]
pub struct Answered<T> {
    pub answer: T,
    pub bank: DshotBank,
}

impl DshotBank {
    pub(crate) fn answering<T: Copy>(self, answer: T) -> Answered<T>
        ensures { result ≡ record { answer = answer; bank = self } }
    {
        Answered { answer, bank: self }
    }

    // A bank whose lanes hold their first buffers, with one spare per lane. The first lent buffer is current, and the second is spare.
    #[tactic(auto, unfolding(dshot_bank_spec::specs::Commands::from_lanes))]
    pub fn from_lanes(timing: DshotTiming) -> Self
        ensures { bank_of result ≡ from_lanes 4 (timing_of timing) }
    {
        let core = Core {
            timing,
            demand: Demand::default(),
            requests: Requests::default(),
            frame: Frame::default(),
            stats: DshotStats::default(),
        };
        let reply = LaneReply {
            reply: StoredReply::NoReply,
            valid: 0,
            invalid: 0,
            consecutive_invalid: 0,
        };
        DshotBank {
            core,
            replies: [reply; LANES],
        }
    }
}
