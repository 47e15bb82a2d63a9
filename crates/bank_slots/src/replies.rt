// Ported from crates/ferrowasp-stm32-critical/src/dshot_bank.rs of Eirik2020/ferro-wasp at commit 9cb8aca1a6, Copyright (c) 2026 Kaldstrand, under
// the Apache License, Version 2.0 (see NOTICE). Changed: ported to Rattle, on a state in lent slots. A lane's window is a part of one buffer.
//
// The replies of the last receive window, and their counts. A lane takes nine slots: the reply's kind and number, and three counts.

ghost use Rattle.std.specs.Prelude.{◌≡◌, ◌+◌, ◌*◌, ◌<◌, slice_index};
ghost use Rattle.dshot_reply.specs.Answers.{error_number, reply_answer};
ghost use Rattle.dshot_bank_spec.specs.State.{Bank};
ghost use Rattle.dshot_bank_spec.specs.Replies.{window, read_window, count_reply, decode_replies};
ghost use Rattle.bank_slots_spec.specs.Memory.{at, write};
ghost use Rattle.bank_slots_spec.specs.Places.{slots};
ghost use Rattle.bank_slots_spec.specs.Places as Places;
ghost use Rattle.bank_slots_spec.specs.Store.{reply_kind, reply_number, lane_rows};
ghost use Rattle.bank_slots_spec.specs.Load as Load;
ghost use Rattle.bank_slots_spec.specs.Moves.{Moves};
ghost use Rattle.bank_slots_spec.specs.Arguments.{present, masks};
ghost use Rattle.bank_slots_spec.specs.Load.{lane_from};
ghost use Rattle.bank_slots_spec.specs.Parts.{with_replies, windows_read};

use crate::memory::{flag, put_word, word_at};
use crate::numbers::REFUSED;
use crate::{LANES_SLOTS, PER_LANE, REPLIES, REPLIES_HELD, REPLIES_WAITING, SLOTS};
use dshot_bank::{LANES, LaneReply, Samples, StoredReply};
use dshot_reply::kind::{kind_number, reading_number};
use dshot_reply::refusals::Refusal;
use dshot_reply::{DshotReply, DshotReplyError, REPLY_WINDOW_SAMPLES};

// The number of a refused reply, in one slot.
pub(crate) fn error_slot(error: DshotReplyError) -> u16
    ensures { (result ≡ error_number error) × (result < 12) }
{
    Refusal::from(error).number() as u16
}

// The kind under which a reply is stored: that of its reading, or that of its refusal.
pub(crate) fn stored_kind(read: Result<DshotReply, DshotReplyError>) -> u16
    ensures { result ≡ reply_kind (reply_answer read) }
{
    match read {
        Ok(reply) => kind_number(reply),
        Err(error) => REFUSED + error_slot(error),
    }
}

// The number under which a reply is stored.
fn stored_number(read: Result<DshotReply, DshotReplyError>) -> u32
    ensures { result ≡ reply_number (reply_answer read) }
{
    match read {
        Ok(reply) => reading_number(reply),
        Err(_) => 0,
    }
}

// Writes a lane's reply and its counts into the nine slots from `k` on.
// Without the hint the compiler makes a call of it at each use.
#[inline(always)]
fn put_lane(
    state: &mut [u16; SLOTS],
    k: usize,
    read: Result<DshotReply, DshotReplyError>,
    counted: LaneReply,
)
    requires { k + 8 < slots }
    ensures { state.new ≡ write (lane_rows k (record { reply = reply_answer read; valid = counted.valid; invalid = counted.invalid; consecutive_invalid = counted.consecutive_invalid })) state.old }
{
    state[k] = stored_kind(read);
    put_word(state, k + 1, stored_number(read));
    put_word(state, k + 3, counted.valid);
    put_word(state, k + 5, counted.invalid);
    put_word(state, k + 7, counted.consecutive_invalid);
}

// Counts a reply of the lane whose slots begin at `k`. It does not look at the reply that was stored before.
// Without the hint the compiler makes a call of it at each use.
#[inline(always)]
fn count_reply(state: &mut [u16; SLOTS], k: usize, read: Result<DshotReply, DshotReplyError>)
    requires { k + 8 < slots }
    ensures { state.new ≡ write (lane_rows k (count_reply (reply_answer read) (lane_from k (at state.old)))) state.old }
{
    let before = LaneReply {
        reply: StoredReply::NoReply,
        valid: word_at(state, k + 3),
        invalid: word_at(state, k + 5),
        consecutive_invalid: word_at(state, k + 7),
    };
    put_lane(state, k, read, before.counting(StoredReply::from(read)));
}

// Reads and counts the window of a lane. Extended telemetry is not enabled yet, so every value except its acknowledgement is read as eRPM.
// Without the hint the compiler makes a call of it at each use.
#[inline(always)]
fn decode_lane(
    state: &mut [u16; SLOTS],
    lane: usize,
    lanes: &[u16; LANES_SLOTS],
    captures: &Samples,
)
    requires { lane < 4 }
    ensures { state.new ≡ write (lane_rows (Places.REPLIES + 9 * lane) (count_reply (read_window (Load.flag (slice_index lanes.now (4 + lane))) (window captures.now lane) (slice_index lanes.now (8 + lane))) (lane_from (Places.REPLIES + 9 * lane) (at state.old)))) state.old }
{
    let k = REPLIES + PER_LANE * lane;
    if !flag(lanes[4 + lane]) {
        count_reply(state, k, Err(DshotReplyError::NoReply));
        return;
    }
    let from = REPLY_WINDOW_SAMPLES * lane;
    let to = from + REPLY_WINDOW_SAMPLES;
    let read = dshot_reply::decode_sampled_reply(&captures[from..to], lanes[8 + lane], false);
    count_reply(state, k, read);
}

fn decode_replies(state: &mut [u16; SLOTS], lanes: &[u16; LANES_SLOTS], captures: &Samples)
    ensures { Moves (λ (b : Bank). with_replies (decode_replies 4 (present lanes.now) (masks lanes.now) captures.now b.replies) b) state.old state.new }
{
    for lane in 0..LANES {
        decode_lane(state, lane, lanes, captures);
    }
}

// Decodes the last receive window, if one waits.
pub(crate) fn read_replies(state: &mut [u16; SLOTS], lanes: &[u16; LANES_SLOTS], captures: &Samples)
    ensures { Moves (windows_read (present lanes.now) (masks lanes.now) captures.now) state.old state.new }
{
    if !flag(state[REPLIES_WAITING]) {
        return;
    }
    decode_replies(state, lanes, captures);
    state[REPLIES_WAITING] = 0;
    state[REPLIES_HELD] = 1;
}
