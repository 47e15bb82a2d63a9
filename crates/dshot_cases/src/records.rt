// Replays one record, by its kind. Kinds 1 to 7 are here. Packets and timings are in frames.rt, and sequences in sequences.rt. Throttles, commands,
// leases and the constants are in commands.rt.
//
// Each function gets the record's numbers after its kind. It answers whether the call gives what is stored, or nothing if the record is unreadable: it
// has too few or too many numbers, or one that the call cannot take. A refusal is 0 for none, or its number. If it is not 0, the answer's other numbers
// are 0. EDT is 0 or 1. A capture is given as runs of equal samples, at most 512 samples in all.

use crate::{commands, frames, sequences};
use case_text::answers::{Answer, of_read, status};
use case_text::captures::unroll;
use case_text::numbers::flag;
use dshot::DshotPacket;
use dshot_reply::{DshotReply, simulate};

pub const MOST_SAMPLES: usize = 512;

// What each slot of a buffer holds before a call fills it.
pub const UNTOUCHED: u16 = 43690;

// 1 VALUE WORD
fn transitions_for(fields: &[u64]) -> Option<bool> {
    let &[value, word] = fields else {
        return None;
    };
    let found = dshot_reply::reply_transitions_for(u16::try_from(value).ok()?);
    Some(u64::from(found) == word)
}

// 2 WORD REFUSAL VALUE
fn decoded(fields: &[u64]) -> Option<bool> {
    let &[word, refusal, value] = fields else {
        return None;
    };
    let found = dshot_reply::decode_gcr(u32::try_from(word).ok()?);
    let stored = Answer {
        refusal,
        numbers: [value],
    };
    Some(Answer::from(found.map(|value| [u64::from(value)])) == stored)
}

// 3 VALUE EDT REFUSAL KIND NUMBER
fn value_read(fields: &[u64]) -> Option<bool> {
    let &[value, edt, refusal, kind, number] = fields else {
        return None;
    };
    let found = DshotReply::from_value(u16::try_from(value).ok()?, flag(edt)?);
    let stored = Answer {
        refusal,
        numbers: [kind, number],
    };
    Some(of_read(found) == stored)
}

// 4 MASK RUNS (SAMPLE TIMES)*RUNS REFUSAL WORD
fn transitions(fields: &[u64]) -> Option<bool> {
    let [mask, count, runs @ .., refusal, word] = fields else {
        return None;
    };
    let mask = u16::try_from(*mask).ok()?;
    let mut samples = [0; MOST_SAMPLES];
    let n = unroll(runs, *count, &mut samples)?;
    let found = dshot_reply::reply_transitions(&samples[..n], mask);
    let stored = Answer {
        refusal: *refusal,
        numbers: [*word],
    };
    Some(Answer::from(found.map(|word| [u64::from(word)])) == stored)
}

// 5 MASK EDT RUNS (SAMPLE TIMES)*RUNS REFUSAL KIND NUMBER
fn sampled(fields: &[u64]) -> Option<bool> {
    let [mask, edt, count, runs @ .., refusal, kind, number] = fields else {
        return None;
    };
    let mask = u16::try_from(*mask).ok()?;
    let edt = flag(*edt)?;
    let mut samples = [0; MOST_SAMPLES];
    let n = unroll(runs, *count, &mut samples)?;
    let found = dshot_reply::decode_sampled_reply(&samples[..n], mask, edt);
    let stored = Answer {
        refusal: *refusal,
        numbers: [*kind, *number],
    };
    Some(of_read(found) == stored)
}

// 6 PERIOD REFUSAL VALUE
fn period(fields: &[u64]) -> Option<bool> {
    let &[period, refusal, value] = fields else {
        return None;
    };
    let found = simulate::period_value(u32::try_from(period).ok()?);
    let stored = Answer {
        refusal,
        numbers: [value],
    };
    Some(Answer::from(found.map(|value| [u64::from(value)])) == stored)
}

// 7 LENGTH VALUE LEAD MASK REFUSAL RUNS (SAMPLE TIMES)*RUNS. The runs are all of the buffer after the call.
fn simulated(fields: &[u64]) -> Option<bool> {
    let [length, value, lead, mask, refusal, count, runs @ ..] = fields else {
        return None;
    };
    let value = u16::try_from(*value).ok()?;
    let mask = u16::try_from(*mask).ok()?;
    let length = *length as usize;
    let mut buffer = [UNTOUCHED; MOST_SAMPLES];
    let out = buffer.get_mut(..length)?;
    let mut stored = [0; MOST_SAMPLES];
    let n = unroll(runs, *count, &mut stored)?;
    let found = simulate::simulate_reply(out, value, *lead as usize, mask);
    Some(status(found) == *refusal && buffer[..length] == stored[..n])
}

pub(crate) fn replay(kind: u64, fields: &[u64]) -> Option<bool> {
    match kind {
        1 => transitions_for(fields),
        2 => decoded(fields),
        3 => value_read(fields),
        4 => transitions(fields),
        5 => sampled(fields),
        6 => period(fields),
        7 => simulated(fields),
        8 => frames::tried(fields),
        9 => frames::packet(fields, DshotPacket::from_value),
        10 => frames::packet(fields, DshotPacket::from_value_bidirectional),
        11 => frames::four_packets(fields, dshot::four_motor_packets),
        12 => frames::four_packets(fields, dshot::four_motor_bidirectional_packets),
        13 => frames::timing(fields),
        14 => sequences::encoded(fields),
        15 => sequences::sequenced(fields),
        16 => commands::throttle(fields),
        17 => commands::throttles(fields),
        18 => commands::run(fields),
        19 => commands::lease(fields),
        20 => frames::read(fields),
        21 => sequences::read(fields),
        22 => commands::step(fields),
        23 => commands::constants(fields),
        _ => None,
    }
}
