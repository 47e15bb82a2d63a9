// Replays records of packets and of timings, and of the reader of packets.

use case_text::answers::Answer;
use case_text::numbers::flag;
use case_text::structs::of_timing;
use dshot::read::{Frame, FrameReadError};
use dshot::{DshotPacket, DshotTiming, MotorPackets, MotorValues, read};

// 8 VALUE TELEMETRY REFUSAL PACKET
pub(crate) fn tried(fields: &[u64]) -> Option<bool> {
    let &[value, telemetry, refusal, packet] = fields else {
        return None;
    };
    let made = DshotPacket::try_from_value(u16::try_from(value).ok()?, flag(telemetry)?);
    let stored = Answer {
        refusal,
        numbers: [packet],
    };
    Some(Answer::from(made.map(|packet| [u64::from(packet.0)])) == stored)
}

// 9 VALUE TELEMETRY PACKET, and 10 the same with an inverted checksum
pub(crate) fn packet<F: Fn(u16, bool) -> DshotPacket>(fields: &[u64], make: F) -> Option<bool>
    requires { F.IsAlwaysCallable make }
{
    let &[value, telemetry, packet] = fields else {
        return None;
    };
    let made = make(u16::try_from(value).ok()?, flag(telemetry)?);
    Some(u64::from(made.0) == packet)
}

// 11 ASKED LANE VALUE*4 PACKET*4, and 12 the same with inverted checksums. If ASKED is 0, no lane is asked for telemetry.
pub(crate) fn four_packets<F: Fn(MotorValues, Option<usize>) -> MotorPackets>(
    fields: &[u64],
    make: F,
) -> Option<bool>
    requires { F.IsAlwaysCallable make }
{
    let [asked, lane, numbers @ ..] = fields else {
        return None;
    };
    let lane = flag(*asked)?.then_some(*lane as usize);
    let (values, packets) = numbers.split_first_chunk::<4>()?;
    let values = values.try_map(u16::try_from).ok()?;
    let stored = packets.as_array::<4>()?;
    Some(make(values, lane).map(|packet| u64::from(packet.0)) == *stored)
}

// 13 CLOCK RATE REFUSAL ARR ZERO ONE SAMPLE
pub(crate) fn timing(fields: &[u64]) -> Option<bool> {
    let &[clock, rate, refusal, arr, zero, one, sample] = fields else {
        return None;
    };
    let made = DshotTiming::from_clocks(u32::try_from(clock).ok()?, u32::try_from(rate).ok()?);
    let stored = Answer {
        refusal,
        numbers: [arr, zero, one, sample],
    };
    Some(Answer::from(made.map(of_timing)) == stored)
}

// The value, the telemetry bit and the kind of checksum.
pub(crate) fn of_frame(read: Result<Frame, FrameReadError>) -> Answer<3> {
    Answer::from(read.map(|frame| [
        u64::from(frame.value),
        u64::from(frame.telemetry),
        frame.checksum as u64,
    ]))
}

// 20 PACKET REFUSAL VALUE TELEMETRY CHECKSUM
pub(crate) fn read(fields: &[u64]) -> Option<bool> {
    let &[packet, refusal, value, telemetry, checksum] = fields else {
        return None;
    };
    let found = read::read_packet(DshotPacket(u16::try_from(packet).ok()?));
    let stored = Answer {
        refusal,
        numbers: [value, telemetry, checksum],
    };
    Some(of_frame(found) == stored)
}
