// Ported from crates/ferrowasp-output/src/dshot.rs of Eirik2020/ferro-wasp at commit 9cb8aca1a6, Copyright (c) 2026 Kaldstrand, under the Apache
// License, Version 2.0 (see NOTICE). Changed: ported to Rattle, with a promise for each call. If a lent buffer has the wrong length, a call refuses.
// The readers are added.
//
// DShot frames: the packet word of a value, its timer counts and duties, and runs of special commands.
//
// The source's requirements: OUTPUT-001, OUTPUT-002, OUTPUT-004, OUTPUT-005, OUTPUT-006, OUTPUT-007, OUTPUT-008, OUTPUT-009. Safety-critical.
#![tactic(auto)]

ghost use Rattle.std.specs.Prelude.{◌≡◌, ◌+◌, ◌/◌, ◌^◌, ◌<◌, ◌≤◌, length, if◌then◌else◌};
ghost use Rattle.dshot_reply_spec.specs.Answer.{refusal_number, filled};
ghost use Rattle.dshot_reply_spec.specs.Nearest.{nearest};
ghost use Rattle.dshot_spec.specs.Packet.{plain, inverted, packet_word, try_packet, checksum, motor_packets};
ghost use Rattle.dshot_spec.specs.Timing.{from_clocks, duty_for_bit};
ghost use Rattle.dshot_spec.specs.Sequence.{is_set, encoded_packet, encoded_sequence, first_duty};
ghost use Rattle.dshot_spec.specs.Tabulate.{tabulate};
ghost use Rattle.dshot_spec.specs.Throttle.{throttle_value, throttle_values};
ghost use Rattle.dshot_spec.specs.Command.{spin_direction, next_value};
ghost use Rattle.dshot_spec.specs.Lease.{lease_expired};
ghost use Rattle.dshot_reply.specs.Refusals.{refusal_number as number_of};
ghost use Rattle.dshot.specs.Answers.{frame_error_number, packet_answer, kind_of, words, lane_of, timing_error_number, timing_answer, timing_of, encoded_number, first_answer, run_of, next_of};
ghost use Rattle.dshot.specs.Steps.{slot};

use dshot_reply::REPLY_SAMPLES_PER_BIT;
use dshot_reply::refusals::{Refusal, WrongLength};
use std::array;

// The readers, which are not in the source.
pub mod read;

pub const DSHOT_BITS: usize = 16;

pub const RESET_SLOTS: usize = 6;

pub const FRAME_SLOTS: usize = DSHOT_BITS + RESET_SLOTS;

pub const COMPARE_DMA_SLOTS: usize = DSHOT_BITS;

pub const DSHOT_MAX_VALUE: u16 = 2047;

pub const DSHOT_MIN_THROTTLE: u16 = 48;

pub const DSHOT_MAX_THROTTLE: u16 = 2047;

pub const DSHOT600_BITRATE_HZ: u32 = 600_000;

// Why no packet is made. `specs/Answers.antt` gives each error of this crate its number in document 01.
#[derive(Clone, Copy, Debug, PartialEq, Eq)]
pub enum DshotFrameError {
    ValueOutOfRange,
}

impl From<DshotFrameError> for Refusal {
    ghost from_gives = { λ e r. number_of r ≡ frame_error_number e };

    fn from(error: DshotFrameError) -> Refusal {
        match error {
            DshotFrameError::ValueOutOfRange => Refusal::ValueOutOfRange,
        }
    }
}

// The word of a frame. It has a type of its own, so that it is never taken for a value.
#[derive(Clone, Copy, Debug, PartialEq, Eq)]
pub struct DshotPacket(pub u16);

// How the checksum is sent.
#[derive(Clone, Copy, Debug, PartialEq, Eq)]
pub enum ChecksumKind {
    Plain,
    Inverted,
}

impl ChecksumKind {
    // The kind that a bank sends: inverted if it is bidirectional.
    pub fn sent(bidirectional: bool) -> Self
        ensures { kind_of result ≡ (if bidirectional then inverted else plain) }
    {
        if bidirectional {
            ChecksumKind::Inverted
        } else {
            ChecksumKind::Plain
        }
    }
}

// The exclusive or of a payload's three nibbles.
fn checksum_of(payload: u16) -> u16
    ensures { (result ≡ checksum payload) × (result < 16) }
{
    (payload ^ payload / 16 ^ payload / 256) % 16
}

impl DshotPacket {
    #[tactic(auto, unfolding(dshot_spec::specs::Packet::try_packet))]
    pub fn try_from_value(value: u16, telemetry: bool) -> Result<Self, DshotFrameError>
        ensures { packet_answer result ≡ try_packet value telemetry }
    {
        if value > DSHOT_MAX_VALUE {
            return Err(DshotFrameError::ValueOutOfRange);
        }
        Ok(DshotPacket::from_value(value, telemetry))
    }

    #[tactic(auto, unfolding(dshot_spec::specs::Packet::packet_word))]
    pub fn from_value(value: u16, telemetry: bool) -> Self
        ensures { result.0 ≡ packet_word plain value telemetry }
    {
        let payload = value % 2048 * 2 + u16::from(telemetry);
        DshotPacket(payload * 16 + checksum_of(payload))
    }

    // The same payload for a bidirectional-DShot ESC: its checksum is inverted, which is what tells the ESC to answer on the same wire.
    #[tactic(auto, unfolding(dshot_spec::specs::Packet::packet_word))]
    pub fn from_value_bidirectional(value: u16, telemetry: bool) -> Self
        ensures { result.0 ≡ packet_word inverted value telemetry }
    {
        let normal = DshotPacket::from_value(value, telemetry);
        DshotPacket(normal.0 ^ 0x0f)
    }

    // A packet with either checksum.
    pub fn of_kind(kind: ChecksumKind, value: u16, telemetry: bool) -> Self
        ensures { result.0 ≡ packet_word (kind_of kind) value telemetry }
    {
        match kind {
            ChecksumKind::Plain => DshotPacket::from_value(value, telemetry),
            ChecksumKind::Inverted => DshotPacket::from_value_bidirectional(value, telemetry),
        }
    }
}

// A value and a packet for each of the four motors.
pub type MotorValues = [u16; 4];

pub type MotorPackets = [DshotPacket; 4];

pub fn packets_of_kind(
    kind: ChecksumKind,
    values: MotorValues,
    telemetry_lane: Option<usize>,
) -> MotorPackets
    ensures { words result ≡ motor_packets 4 (kind_of kind) values (lane_of telemetry_lane) }
{
    array::from_fn(|index| DshotPacket::of_kind(kind, values[index], telemetry_lane == Some(index)))
}

// Packs one synchronized four-lane frame set and sets the telemetry bit on at most one lane. If the telemetry lane is above 3, no lane has it.
pub fn four_motor_packets(values: MotorValues, telemetry_lane: Option<usize>) -> MotorPackets
    ensures { words result ≡ motor_packets 4 plain values (lane_of telemetry_lane) }
{
    packets_of_kind(ChecksumKind::Plain, values, telemetry_lane)
}

// `four_motor_packets` for bidirectional-DShot ESCs: every checksum is inverted.
pub fn four_motor_bidirectional_packets(
    values: MotorValues,
    telemetry_lane: Option<usize>,
) -> MotorPackets
    ensures { words result ≡ motor_packets 4 inverted values (lane_of telemetry_lane) }
{
    packets_of_kind(ChecksumKind::Inverted, values, telemetry_lane)
}

#[derive(Clone, Copy, Debug, PartialEq, Eq)]
pub enum DshotTimingError {
    ZeroTimerClock,
    ZeroBitrate,
    PeriodTooShort,
    PeriodTooLong,
}

impl From<DshotTimingError> for Refusal {
    ghost from_gives = { λ e r. number_of r ≡ timing_error_number e };

    fn from(error: DshotTimingError) -> Refusal {
        match error {
            DshotTimingError::ZeroTimerClock => Refusal::ZeroTimerClock,
            DshotTimingError::ZeroBitrate => Refusal::ZeroBitrate,
            DshotTimingError::PeriodTooShort => Refusal::PeriodTooShort,
            DshotTimingError::PeriodTooLong => Refusal::PeriodTooLong,
        }
    }
}

#[derive(Clone, Copy, Debug, PartialEq, Eq)]
pub struct DshotTiming {
    pub arr: u16,
    pub zero_high: u16,
    pub one_high: u16,
    // Auto-reload that paces bidirectional reply sampling: `REPLY_SAMPLES_PER_BIT` samples per reply bit, which runs at 5/4 of the command
    // bit rate.
    pub reply_sample_arr: u16,
}

impl DshotTiming {
    // The limits of the period, in ticks of the timer. The limit of the sample period refuses a period of 4 too (`shortest-period` in
    // dshot_spec/proofs/TimingLaws.antt).
    pub const MIN_PERIOD: u32 = 4;

    pub const MAX_PERIOD: u32 = 65536;

    // The lower limit of the period of reply samples, in ticks of the timer.
    pub const MIN_REPLY_SAMPLE_PERIOD: u64 = 2;

    // The source also refuses a high time of zero, or one as long as the period. From the shortest period on, no high time is such (`high-times` in
    // dshot_spec/proofs/TimingLaws.antt).
    #[tactic(auto, unfolding(dshot_spec::specs::Timing::from_clocks))]
    pub fn from_clocks(timer_hz: u32, bitrate_hz: u32) -> Result<Self, DshotTimingError>
        ensures { timing_answer result ≡ from_clocks 3 timer_hz bitrate_hz }
    {
        if timer_hz == 0 {
            return Err(DshotTimingError::ZeroTimerClock);
        }
        if bitrate_hz == 0 {
            return Err(DshotTimingError::ZeroBitrate);
        }
        let clock = u64::from(timer_hz);
        let bitrate = u64::from(bitrate_hz);
        let period = div_round(clock, bitrate);
        if period < u64::from(DshotTiming::MIN_PERIOD) {
            return Err(DshotTimingError::PeriodTooShort);
        }
        if period > u64::from(DshotTiming::MAX_PERIOD) {
            return Err(DshotTimingError::PeriodTooLong);
        }
        let reply_sample_hz = bitrate * (5 * REPLY_SAMPLES_PER_BIT as u64) / 4;
        let reply_sample_period = div_round(clock, reply_sample_hz);
        if reply_sample_period < DshotTiming::MIN_REPLY_SAMPLE_PERIOD {
            return Err(DshotTimingError::PeriodTooShort);
        }
        Ok(DshotTiming {
            arr: (period - 1) as u16,
            zero_high: div_round(period * 3, 8) as u16,
            one_high: div_round(period * 3, 4) as u16,
            reply_sample_arr: (reply_sample_period - 1) as u16,
        })
    }

    pub fn duty_for_bit(self, set: bool) -> u16
        ensures { result ≡ duty_for_bit (timing_of self) set }
    {
        if set { self.one_high } else { self.zero_high }
    }
}

fn div_round(numerator: u64, denominator: u64) -> u64
    requires { (0 < denominator) × (numerator + denominator / 2 < 2 ^ 64) }
    ensures { result ≡ nearest numerator denominator }
{
    (numerator + denominator / 2) / denominator
}

fn bit_is_set(packet: DshotPacket, bit_number: usize) -> bool
    requires { bit_number < 16 }
    ensures { result ≡ is_set packet.0 bit_number }
{
    (packet.0 >> bit_number) % 2 == 1
}

// Slot `index` of the lowest `bits` bits of a packet: the duty of a bit, the highest first. After the last bit it is 0.
fn duty_slot(packet: DshotPacket, bits: usize, zero: u16, one: u16, index: usize) -> u16
    requires { bits ≤ 16 }
    ensures { result ≡ slot packet.0 bits zero one index }
{
    if bits <= index {
        return 0;
    }
    if bit_is_set(packet, bits - 1 - index) {
        one
    } else {
        zero
    }
}

// Fills a buffer with the slots of the lowest `bits` bits of a packet.
fn write_duties(packet: DshotPacket, bits: usize, zero: u16, one: u16, output: &mut [u16])
    requires { bits ≤ 16 }
    ensures { output.new ≡ tabulate (length output.old) (slot packet.0 bits zero one) }
{
    for (index, slot) in output.iter_mut().enumerate() {
        *slot = duty_slot(packet, bits, zero, one, index);
    }
}

// Fills a buffer of `FRAME_SLOTS` with the duties of a packet and the reset after them.
#[tactic(auto, unfolding(dshot_spec::specs::Sequence::encoded_packet))]
pub fn encode_packet(
    packet: DshotPacket,
    max_duty: u16,
    output: &mut [u16],
) -> Result<(), WrongLength>
    ensures result_value { encoded_number result ≡ refusal_number (encoded_packet output.old packet.0 max_duty) }
    ensures output_after { output.new ≡ filled (λ l. l) output.old (encoded_packet output.old packet.0 max_duty) }
{
    let output: &mut [u16; FRAME_SLOTS] = output.as_mut_array().ok_or(WrongLength)?;
    let duty_0 = (u32::from(max_duty) * 3 / 8) as u16;
    let duty_1 = (u32::from(max_duty) * 3 / 4) as u16;
    write_duties(packet, DSHOT_BITS, duty_0, duty_1, output);
    Ok(())
}

// Encodes the compare-event DMA sequence used by STM32 timer PWM preload.
//
// The first frame duty is returned for the caller to write directly to CCR. DMA owns the remaining 15 bit duties followed by a final zero,
// which makes the timer output inactive after the last bit.
#[tactic(auto, unfolding(dshot_spec::specs::Sequence::encoded_sequence, dshot_spec::specs::Sequence::sequence_of))]
pub fn encode_compare_sequence(
    packet: DshotPacket,
    timing: DshotTiming,
    dma_output: &mut [u16],
) -> Result<u16, WrongLength>
    ensures result_value { first_answer result ≡ first_duty (encoded_sequence dma_output.old packet.0 (timing_of timing)) }
    ensures dma_output_after { dma_output.new ≡ filled (λ s. s.slots) dma_output.old (encoded_sequence dma_output.old packet.0 (timing_of timing)) }
{
    let slots: &mut [u16; COMPARE_DMA_SLOTS] = dma_output.as_mut_array().ok_or(WrongLength)?;
    // Both duties are read before the loop. The compiler passes the struct as one number, and in the loop it would shift each duty out of it again.
    let zero = timing.duty_for_bit(false);
    let one = timing.duty_for_bit(true);
    write_duties(packet, DSHOT_BITS - 1, zero, one, slots);
    Ok(timing.duty_for_bit(bit_is_set(packet, 15)))
}

// The highest throttle. A higher one counts as this one.
const MAX_THROTTLE: u16 = 2000;

#[tactic(auto, unfolding(dshot_spec::specs::Throttle::throttle_value))]
pub fn throttle_to_dshot(value: u16) -> u16
    ensures { result ≡ throttle_value value }
{
    if value == 0 {
        return 0;
    }
    let value = u32::from(value.min(MAX_THROTTLE));
    let span = u32::from(DSHOT_MAX_THROTTLE - DSHOT_MIN_THROTTLE);
    (u32::from(DSHOT_MIN_THROTTLE) + value * span / u32::from(MAX_THROTTLE)) as u16
}

#[tactic(auto, unfolding(dshot_spec::specs::Throttle::throttle_values, dshot_spec::specs::Tabulate::tabulate))]
pub fn throttles_to_dshot(values: MotorValues) -> MotorValues
    ensures { result ≡ throttle_values 4 values }
{
    values.map(throttle_to_dshot)
}

// DShot special commands that a run sends. Values 1-47 are commands, not throttle. ESCs act on them only with the telemetry bit set, while the motor
// is stopped, and after several identical frames.
pub const DSHOT_CMD_SAVE_SETTINGS: u16 = 12;

pub const DSHOT_CMD_SPIN_DIRECTION_NORMAL: u16 = 20;

pub const DSHOT_CMD_SPIN_DIRECTION_REVERSED: u16 = 21;

// Frames per command. The protocol asks for at least six; Betaflight sends ten, and so does this.
pub const DSHOT_COMMAND_REPEATS: u8 = 10;

// A short run of special-command frames for one motor, e.g. "set direction, then save". Each call to `next_value` yields the value for the next frame
// until the run is spent. Any fields make a run. A count of 0 means 256; no run of `spin_direction` reaches 0.
#[derive(Clone, Copy, Debug, PartialEq, Eq)]
pub struct DshotCommandSequence {
    pub commands: [u16; 2],
    pub index: u8,
    pub repeats_left: u8,
}

impl DshotCommandSequence {
    // Sets the spin direction and saves it in the ESC.
    #[tactic(auto, unfolding(dshot_spec::specs::Command::spin_direction))]
    pub fn spin_direction(reversed: bool) -> Self
        ensures { run_of result ≡ spin_direction reversed }
    {
        let direction = if reversed {
            DSHOT_CMD_SPIN_DIRECTION_REVERSED
        } else {
            DSHOT_CMD_SPIN_DIRECTION_NORMAL
        };
        DshotCommandSequence {
            commands: [direction, DSHOT_CMD_SAVE_SETTINGS],
            index: 0,
            repeats_left: DSHOT_COMMAND_REPEATS,
        }
    }

    // The command value for the next frame, or `None` once every command has been sent its full number of times.
    #[tactic(auto, unfolding(dshot_spec::specs::Command::next_value))]
    pub fn next_value(&mut self) -> Option<u16>
        ensures { next_of result self.new ≡ next_value 10 (run_of self.old) }
    {
        let command = *self.commands.get(usize::from(self.index))?;
        self.repeats_left = self.repeats_left.wrapping_sub(1);
        if self.repeats_left == 0 {
            self.index += 1;
            self.repeats_left = DSHOT_COMMAND_REPEATS;
        }
        Some(command)
    }
}

// Returns true once a bounded command lease is older than its duration.
//
// Timestamps are a `u64` millisecond count, which does not wrap in use. The subtraction still wraps. So a `now_ms` read before `started_ms` - out of
// order - counts as expired, the conservative answer. If the subtraction wraps into the lease, it does not.
#[tactic(auto, unfolding(dshot_spec::specs::Lease::lease_expired))]
pub fn command_lease_expired(started_ms: u64, duration_ms: u32, now_ms: u64) -> bool
    ensures { result ≡ lease_expired started_ms duration_ms now_ms }
{
    now_ms.wrapping_sub(started_ms) > u64::from(duration_ms)
}
