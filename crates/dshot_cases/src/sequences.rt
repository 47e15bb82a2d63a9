// Replays records of packets as duties, and of the reader of sequences.

use crate::frames::of_frame;
use crate::records::UNTOUCHED;
use arrayvec::ArrayVec;
use case_text::answers::{Answer, status};
use case_text::structs::timing_of;
use dshot::{DshotPacket, read};

const MOST_SLOTS: usize = 512;

// Slots, each a number of its own.
fn slots(numbers: &[u64]) -> Option<ArrayVec<u16, MOST_SLOTS>> {
    let mut slots = ArrayVec::new();
    for number in numbers {
        slots.try_push(u16::try_from(*number).ok()?).ok()?;
    }
    Some(slots)
}

// 14 PACKET DUTY REFUSAL SLOT*. The slots are all of the buffer after the call.
pub(crate) fn encoded(fields: &[u64]) -> Option<bool> {
    let [packet, max_duty, refusal, numbers @ ..] = fields else {
        return None;
    };
    let packet = DshotPacket(u16::try_from(*packet).ok()?);
    let max_duty = u16::try_from(*max_duty).ok()?;
    let stored = slots(numbers)?;
    let mut buffer = [UNTOUCHED; MOST_SLOTS];
    let out = &mut buffer[..stored.len()];
    let found = dshot::encode_packet(packet, max_duty, out);
    Some(status(found) == *refusal && *out == *stored.as_slice())
}

// 15 PACKET ARR ZERO ONE SAMPLE REFUSAL FIRST SLOT*. The slots are all of the buffer after the call.
pub(crate) fn sequenced(fields: &[u64]) -> Option<bool> {
    let [packet, arr, zero, one, sample, refusal, first, numbers @ ..] = fields else {
        return None;
    };
    let packet = DshotPacket(u16::try_from(*packet).ok()?);
    let timing = timing_of([*arr, *zero, *one, *sample])?;
    let stored = slots(numbers)?;
    let mut buffer = [UNTOUCHED; MOST_SLOTS];
    let out = &mut buffer[..stored.len()];
    let found = dshot::encode_compare_sequence(packet, timing, out);
    let answer = Answer {
        refusal: *refusal,
        numbers: [*first],
    };
    let is_same = Answer::from(found.map(|duty| [u64::from(duty)])) == answer;
    Some(is_same && *out == *stored.as_slice())
}

// 21 FIRST ARR ZERO ONE SAMPLE REFUSAL VALUE TELEMETRY CHECKSUM SLOT*
pub(crate) fn read(fields: &[u64]) -> Option<bool> {
    let [
        first,
        arr,
        zero,
        one,
        sample,
        refusal,
        value,
        telemetry,
        checksum,
        numbers @ ..,
    ] = fields
    else {
        return None;
    };
    let first = u16::try_from(*first).ok()?;
    let timing = timing_of([*arr, *zero, *one, *sample])?;
    let slots = slots(numbers)?;
    let stored = Answer {
        refusal: *refusal,
        numbers: [*value, *telemetry, *checksum],
    };
    Some(of_frame(read::read_compare_sequence(first, slots.as_slice(), timing)) == stored)
}
