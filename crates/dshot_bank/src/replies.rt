// Ported from crates/ferrowasp-stm32-critical/src/dshot_bank.rs of Eirik2020/ferro-wasp at commit 9cb8aca1a6, Copyright (c) 2026 Kaldstrand, under
// the Apache License, Version 2.0 (see NOTICE). Changed: ported to Rattle, with a promise for each call. The lanes' windows lie in one lent buffer.
//
// The replies of the last receive window, and their counts.

ghost use Rattle.std.specs.Prelude.{◌≡◌, ◌<◌, false, map, get_or};
ghost use Rattle.dshot_reply_spec.specs.Answer.{refused, is_given};
ghost use Rattle.dshot_reply_spec.specs.Refusals.{no_reply};
ghost use Rattle.dshot_reply.specs.Answers.{reply_answer};
ghost use Rattle.dshot_spec.specs.Tabulate.{tabulate};
ghost use Rattle.dshot_bank_spec.specs.State.{Buffers};
ghost use Rattle.dshot_bank_spec.specs.Commands.{no_replies};
ghost use Rattle.dshot_bank_spec.specs.Replies.{window, read_window, count_reply, decode_replies};
ghost use Rattle.dshot_bank_spec.specs.Calls as Call;
ghost use Rattle.dshot_bank_spec.specs.Calls.{reply_counts};
ghost use Rattle.dshot_bank_spec.specs.Steps.{step};
ghost use Rattle.dshot_bank.specs.States.{stored_answer, lane_reply_of, replies_of, state_of, stepped};
ghost use Rattle.dshot_bank.specs.Answers.{answers_of, taken_answer, reply_stats_of};

use crate::{Answered, DshotBank, LANES, LaneReply, Samples, StoredReply};
use dshot::MotorValues;
use dshot_reply::{DshotReply, DshotReplyError, REPLY_WINDOW_SAMPLES, decode_sampled_reply};
use std::array;

// An answer of the hardware for each lane.
pub type LaneFlags = [bool; LANES];

// What the hardware answers at a service: for each lane whether it took its buffer, whether it has a capture, and the mask of its pin in that
// capture. Without a capture the mask is not read.
#[derive(Clone, Copy, Debug, PartialEq, Eq)]
pub struct LaneAnswers {
    pub taken: LaneFlags,
    pub present: LaneFlags,
    pub masks: MotorValues,
}

pub type DshotReplies = [Result<DshotReply, DshotReplyError>; LANES];

pub type RepliesTaken = Answered<Option<DshotReplies>>;

// Each lane's bidirectional reply accounting.
#[derive(Clone, Copy, Debug, PartialEq, Eq)]
pub struct DshotReplyStats {
    pub valid: [u32; LANES],
    pub invalid: [u32; LANES],
    // Missing or bad replies since each lane's last valid one.
    pub consecutive_invalid: [u32; LANES],
}

impl From<Result<DshotReply, DshotReplyError>> for StoredReply {
    ghost from_gives = { λ r s. stored_answer s ≡ reply_answer r };

    fn from(reply: Result<DshotReply, DshotReplyError>) -> Self {
        match reply {
            Ok(DshotReply::Erpm { erpm_div100 }) => StoredReply::Erpm(erpm_div100),
            Ok(DshotReply::Temperature { celsius }) => StoredReply::Temperature(celsius),
            Ok(DshotReply::Voltage { quarter_volts }) => StoredReply::Voltage(quarter_volts),
            Ok(DshotReply::Current { amps }) => StoredReply::Current(amps),
            Ok(DshotReply::Debug { channel, value }) => StoredReply::Debug(channel, value),
            Ok(DshotReply::StateEvent { value }) => StoredReply::StateEvent(value),
            Ok(DshotReply::ExtendedTelemetryEnabled) => StoredReply::ExtendedTelemetryEnabled,
            Err(DshotReplyError::NoReply) => StoredReply::NoReply,
            Err(DshotReplyError::Overlong) => StoredReply::Overlong,
            Err(DshotReplyError::InvalidSymbol) => StoredReply::InvalidSymbol,
            Err(DshotReplyError::Checksum) => StoredReply::Checksum,
            Err(DshotReplyError::ZeroPeriod) => StoredReply::ZeroPeriod,
        }
    }
}

impl From<StoredReply> for Result<DshotReply, DshotReplyError> {
    ghost from_gives = { λ s r. reply_answer r ≡ stored_answer s };

    fn from(stored: StoredReply) -> Self {
        match stored {
            StoredReply::Erpm(erpm_div100) => Ok(DshotReply::Erpm { erpm_div100 }),
            StoredReply::Temperature(celsius) => Ok(DshotReply::Temperature { celsius }),
            StoredReply::Voltage(quarter_volts) => Ok(DshotReply::Voltage { quarter_volts }),
            StoredReply::Current(amps) => Ok(DshotReply::Current { amps }),
            StoredReply::Debug(channel, value) => Ok(DshotReply::Debug { channel, value }),
            StoredReply::StateEvent(value) => Ok(DshotReply::StateEvent { value }),
            StoredReply::ExtendedTelemetryEnabled => Ok(DshotReply::ExtendedTelemetryEnabled),
            StoredReply::NoReply => Err(DshotReplyError::NoReply),
            StoredReply::Overlong => Err(DshotReplyError::Overlong),
            StoredReply::InvalidSymbol => Err(DshotReplyError::InvalidSymbol),
            StoredReply::Checksum => Err(DshotReplyError::Checksum),
            StoredReply::ZeroPeriod => Err(DshotReplyError::ZeroPeriod),
        }
    }
}

impl StoredReply {
    // The reply as the reader gives it.
    fn read(self) -> Result<DshotReply, DshotReplyError>
        ensures { reply_answer result ≡ stored_answer self }
    {
        self.into()
    }

    fn is_ok(self) -> bool
        ensures { result ≡ is_given (stored_answer self) }
    {
        self.read().is_ok()
    }
}

#[tactic(auto, unfolding(dshot_bank_spec::specs::Replies::count_reply))]
impl LaneReply {
    // The lane's record after one more reply.
    pub fn counting(self, reply: StoredReply) -> Self
        ensures { lane_reply_of result ≡ count_reply (stored_answer reply) (lane_reply_of self) }
    {
        if reply.is_ok() {
            LaneReply {
                reply,
                valid: self.valid.wrapping_add(1),
                consecutive_invalid: 0,
                ..self
            }
        } else {
            LaneReply {
                reply,
                invalid: self.invalid.wrapping_add(1),
                consecutive_invalid: self.consecutive_invalid.saturating_add(1),
                ..self
            }
        }
    }
}

// A lane's reply, from its window. Extended telemetry is not enabled yet, so every value except its acknowledgement is read as eRPM.
fn read_window(captures: &Samples, lane: usize, present: bool, mask: u16) -> StoredReply
    requires { lane < 4 }
    ensures { stored_answer result ≡ read_window present (window captures.now lane) mask }
{
    if !present {
        return StoredReply::NoReply;
    }
    let from = REPLY_WINDOW_SAMPLES * lane;
    let window = &captures[from..from + REPLY_WINDOW_SAMPLES];
    decode_sampled_reply(window, mask, false).into()
}

// Each lane's reply. With `array::from_fn` the proof does not close.
fn read_windows(answers: LaneAnswers, captures: &Samples) -> [StoredReply; LANES]
    ensures { map stored_answer result ≡ tabulate 4 (λ lane. read_window (get_or answers.present lane false) (window captures.now lane) (get_or answers.masks lane 0)) }
{
    let mut reads = [StoredReply::NoReply; LANES];
    for lane in 0..LANES {
        reads[lane] = read_window(captures, lane, answers.present[lane], answers.masks[lane]);
    }
    reads
}

// The lanes' records after one more reply each.
#[tactic(auto, using(crate::proofs::ReplyLaws::lane_at), unfolding(dshot_spec::specs::Tabulate::tabulate))]
fn count_replies(old: [LaneReply; LANES], reads: [StoredReply; LANES]) -> [LaneReply; LANES]
    ensures { replies_of result ≡ tabulate 4 (λ lane. count_reply (get_or (map stored_answer reads) lane (refused no_reply)) (get_or (replies_of old) lane no_replies)) }
{
    array::from_fn(|lane| old[lane].counting(reads[lane]))
}

// Decodes the last receive window. All lanes are read before any is counted, which is faster.
#[tactic(auto, unfolding(dshot_bank_spec::specs::Replies::decode_replies, dshot_spec::specs::Tabulate::tabulate))]
pub(crate) fn decode_replies(
    old: [LaneReply; LANES],
    answers: LaneAnswers,
    captures: &Samples,
) -> [LaneReply; LANES]
    ensures { replies_of result ≡ decode_replies 4 answers.present answers.masks captures.now (replies_of old) }
{
    count_replies(old, read_windows(answers, captures))
}

fn reads_of(lanes: [LaneReply; LANES]) -> DshotReplies
    ensures { answers_of result ≡ Call.replies_of (replies_of lanes) }
{
    lanes.map(|lane| lane.reply.read())
}

#[tactic(auto, unfolding(dshot_bank_spec::specs::Steps::step, dshot_bank_spec::specs::Steps::port_refusal))]
impl DshotBank {
    // The replies decoded since the last call, once.
    pub fn take_replies(mut self) -> RepliesTaken
        ensures { (b : Buffers) → stepped (taken_answer result.answer) result.bank b ≡ step 4 (state_of self b) Call.take_replies }
    {
        if !self.core.frame.replies_held {
            return RepliesTaken {
                answer: None,
                bank: self,
            };
        }
        self.core.frame.replies_held = false;
        RepliesTaken {
            answer: Some(reads_of(self.replies)),
            bank: self,
        }
    }

    pub fn reply_stats(self) -> DshotReplyStats
        ensures { (b : Buffers) → stepped (reply_counts (reply_stats_of result)) self b ≡ step 4 (state_of self b) Call.reply_stats }
    {
        // With three `map` the proof does not close.
        let [a, b, c, d] = self.replies;
        DshotReplyStats {
            valid: [a.valid, b.valid, c.valid, d.valid],
            invalid: [a.invalid, b.invalid, c.invalid, d.invalid],
            consecutive_invalid: [
                a.consecutive_invalid,
                b.consecutive_invalid,
                c.consecutive_invalid,
                d.consecutive_invalid,
            ],
        }
    }
}
