// Ported from crates/ferrowasp-stm32-critical/src/dshot_bank.rs of Eirik2020/ferro-wasp at commit 9cb8aca1a6, Copyright (c) 2026 Kaldstrand, under
// the Apache License, Version 2.0 (see NOTICE). Changed: ported to Rattle, on a state in lent slots, with a promise for each call. Each call refuses
// slices of other lengths, and the view a lane above 3. The view is added.
//
// The calls that only look at a bank, the taking of its replies, and the view of the sequence that a lane is sending.

#![tactic(auto, unfolding(bank_slots_spec::specs::Called::answer_of, bank_slots_spec::specs::Called::bank_after, bank_slots_spec::specs::Outs::out_after))]

ghost use Rattle.std.specs.Prelude.{◌≡◌, ◌+◌, ◌<◌, [], ◌∷◌, length, if◌then◌else◌};
ghost use Rattle.dshot_reply_spec.specs.Answer.{refused};
ghost use Rattle.dshot_reply_spec.specs.Refusals.{no_reply, wrong_length};
ghost use Rattle.dshot_reply.specs.Answers.{reply_answer};
ghost use Rattle.dshot_reply.specs.Refusals.{status_number};
ghost use Rattle.dshot_bank_spec.specs.State.{Buffers};
ghost use Rattle.dshot_bank_spec.specs.Calls as Call;
ghost use Rattle.bank_slots_spec.specs.Memory.{at, word, write, word_rows};
ghost use Rattle.bank_slots_spec.specs.Places.{slots};
ghost use Rattle.bank_slots_spec.specs.Load.{reply};
ghost use Rattle.bank_slots_spec.specs.Load as Load;
ghost use Rattle.bank_slots_spec.specs.Store as Store;
ghost use Rattle.bank_slots_spec.specs.Called.{Called, fit, sized, state_at, answer_of, number};
ghost use Rattle.bank_slots_spec.specs.Outs.{reply_slots, out_after};
ghost use Rattle.bank_slots_spec.specs.Parts.{slot_rows};

use crate::memory::{flag, put_word, word_at};
use crate::replies::error_slot;
use crate::steps::values_at;
use crate::{
    BIDIRECTIONAL, FAULTED, FRAMES_STARTED, IN_SECOND, PER_LANE, REPLIES, REPLIES_HELD,
    REPLIES_SLOTS, REPLY_STATS_SLOTS, RUN, SLOTS, STATS_SLOTS,
};
use dshot::COMPARE_DMA_SLOTS;
use dshot_bank::{LANES, Slots};
use dshot_reply::kind::{kind_number, reading_number};
use dshot_reply::refusals::Refusal;
use dshot_reply::{DshotReply, DshotReplyError};

// ---- flags and values

// Copies the flag in a slot of the bank into one slot, as 0 or 1.
#[tactic(auto, using(crate::proofs::Parts::bit_is))]
fn look_flag(bank: &[u16], k: usize, out: &mut [u16]) -> Result<(), Refusal>
    requires { k < slots }
    ensures value { status_number result ≡ (if fit bank.now (sized 1 out.old) then 0 else wrong_length) }
    ensures out_after { out.new ≡ (if fit bank.now (sized 1 out.old) then Store.bit (Load.flag (at bank.now k)) ∷ [] else out.old) }
{
    let state = bank.as_array::<SLOTS>().ok_or(Refusal::WrongLength)?;
    let out = out.as_mut_array::<1>().ok_or(Refusal::WrongLength)?;
    *out = [u16::from(flag(state[k]))];
    Ok(())
}

pub fn is_bidirectional(bank: &[u16], out: &mut [u16]) -> Result<(), Refusal>
    ensures value { (b : Buffers) → status_number result ≡ number (answer_of (fit bank.now (sized 1 out.old)) (state_at bank.now b) Call.is_bidirectional) }
    ensures out_after { (b : Buffers) → out.new ≡ out_after (answer_of (fit bank.now (sized 1 out.old)) (state_at bank.now b) Call.is_bidirectional) out.old }
{
    look_flag(bank, BIDIRECTIONAL, out)
}

pub fn is_faulted(bank: &[u16], out: &mut [u16]) -> Result<(), Refusal>
    ensures value { (b : Buffers) → status_number result ≡ number (answer_of (fit bank.now (sized 1 out.old)) (state_at bank.now b) Call.is_faulted) }
    ensures out_after { (b : Buffers) → out.new ≡ out_after (answer_of (fit bank.now (sized 1 out.old)) (state_at bank.now b) Call.is_faulted) out.old }
{
    look_flag(bank, FAULTED, out)
}

// Whether a special-command run is still being sent.
pub fn command_pending(bank: &[u16], out: &mut [u16]) -> Result<(), Refusal>
    ensures value { (b : Buffers) → status_number result ≡ number (answer_of (fit bank.now (sized 1 out.old)) (state_at bank.now b) Call.command_pending_call) }
    ensures out_after { (b : Buffers) → out.new ≡ out_after (answer_of (fit bank.now (sized 1 out.old)) (state_at bank.now b) Call.command_pending_call) out.old }
{
    look_flag(bank, RUN, out)
}

pub fn requested_values(bank: &[u16], out: &mut [u16]) -> Result<(), Refusal>
    ensures value { (b : Buffers) → status_number result ≡ number (answer_of (fit bank.now (sized 4 out.old)) (state_at bank.now b) Call.requested_values_call) }
    ensures out_after { (b : Buffers) → out.new ≡ out_after (answer_of (fit bank.now (sized 4 out.old)) (state_at bank.now b) Call.requested_values_call) out.old }
{
    let state = bank.as_array::<SLOTS>().ok_or(Refusal::WrongLength)?;
    let out = out.as_mut_array::<LANES>().ok_or(Refusal::WrongLength)?;
    *out = values_at(state);
    Ok(())
}

// ---- counts

// The counts, in the order of DshotStats.
pub fn stats(bank: &[u16], out: &mut [u16]) -> Result<(), Refusal>
    ensures value { (b : Buffers) → status_number result ≡ number (answer_of (fit bank.now (sized 22 out.old)) (state_at bank.now b) Call.stats) }
    ensures out_after { (b : Buffers) → out.new ≡ out_after (answer_of (fit bank.now (sized 22 out.old)) (state_at bank.now b) Call.stats) out.old }
{
    let state = bank.as_array::<SLOTS>().ok_or(Refusal::WrongLength)?;
    let out = out
        .as_mut_array::<STATS_SLOTS>()
        .ok_or(Refusal::WrongLength)?;
    // The state holds the counts in the same slots as the answer.
    out.copy_from_slice(&state[FRAMES_STARTED..REPLIES]);
    Ok(())
}

// Each count of the four lanes, in the order of DshotReplyStats.
pub fn reply_stats(bank: &[u16], out: &mut [u16]) -> Result<(), Refusal>
    ensures value { (b : Buffers) → status_number result ≡ number (answer_of (fit bank.now (sized 24 out.old)) (state_at bank.now b) Call.reply_stats) }
    ensures out_after { (b : Buffers) → out.new ≡ out_after (answer_of (fit bank.now (sized 24 out.old)) (state_at bank.now b) Call.reply_stats) out.old }
{
    let state = bank.as_array::<SLOTS>().ok_or(Refusal::WrongLength)?;
    let out = out
        .as_mut_array::<REPLY_STATS_SLOTS>()
        .ok_or(Refusal::WrongLength)?;
    for count in 0..3 {
        for lane in 0..LANES {
            let from = REPLIES + PER_LANE * lane + 3 + 2 * count;
            put_word(out, 8 * count + 2 * lane, word_at(state, from));
        }
    }
    Ok(())
}

// ---- replies

// The reply that is stored as a kind and a number.
fn stored(kind: u16, carried: u32) -> Result<DshotReply, DshotReplyError>
    ensures { reply_answer result ≡ reply kind carried }
{
    let low = (carried % 256) as u8;
    match kind {
        0 => Ok(DshotReply::Erpm {
            erpm_div100: carried,
        }),
        1 => Ok(DshotReply::Temperature { celsius: low }),
        2 => Ok(DshotReply::Voltage { quarter_volts: low }),
        3 => Ok(DshotReply::Current { amps: low }),
        4 => Ok(DshotReply::Debug {
            channel: 1,
            value: low,
        }),
        5 => Ok(DshotReply::Debug {
            channel: 2,
            value: low,
        }),
        6 => Ok(DshotReply::Debug {
            channel: 3,
            value: low,
        }),
        7 => Ok(DshotReply::StateEvent { value: low }),
        8 => Ok(DshotReply::ExtendedTelemetryEnabled),
        // The kind of a refusal is 16 + its number.
        24 => Err(DshotReplyError::Overlong),
        25 => Err(DshotReplyError::InvalidSymbol),
        26 => Err(DshotReplyError::Checksum),
        27 => Err(DshotReplyError::ZeroPeriod),
        _ => Err(DshotReplyError::NoReply),
    }
}

// A lane's reply in the four slots from `k` on: 0, the kind and the number. If it is refused, the refusal's number and zeros.
// Without the hint the compiler makes a call of it at each use.
#[inline(always)]
fn put_reply(out: &mut [u16; REPLIES_SLOTS], k: usize, read: Result<DshotReply, DshotReplyError>)
    requires { k + 3 < 17 }
    ensures { out.new ≡ write (slot_rows k (reply_slots (reply_answer read))) out.old }
{
    match read {
        Ok(reply) => {
            out[k] = 0;
            out[k + 1] = kind_number(reply);
            put_word(out, k + 2, reading_number(reply));
        }
        Err(error) => {
            out[k] = error_slot(error);
            out[k + 1] = 0;
            out[k + 2] = 0;
            out[k + 3] = 0;
        }
    }
}

// The reply in the slots of a lane, from `k` on.
fn reply_at(state: &[u16; SLOTS], k: usize) -> Result<DshotReply, DshotReplyError>
    requires { k + 2 < slots }
    ensures { reply_answer result ≡ reply (at state.now k) (word (k + 1) (at state.now)) }
{
    stored(state[k], word_at(state, k + 1))
}

// The replies decoded since the last call, once: whether some are held, and four slots a lane.
pub fn take_replies(bank: &mut [u16], out: &mut [u16]) -> Result<(), Refusal>
    ensures called { (b : Buffers) → Called (fit bank.old (sized 17 out.old)) Call.take_replies b bank.old bank.new (status_number result) }
    ensures out_after { (b : Buffers) → out.new ≡ out_after (answer_of (fit bank.old (sized 17 out.old)) (state_at bank.old b) Call.take_replies) out.old }
{
    let state = bank.as_mut_array::<SLOTS>().ok_or(Refusal::WrongLength)?;
    let out = out
        .as_mut_array::<REPLIES_SLOTS>()
        .ok_or(Refusal::WrongLength)?;
    let held = flag(state[REPLIES_HELD]);
    out[0] = u16::from(held);
    for lane in 0..LANES {
        // If no replies are held, each lane has no reply, so that none reads as a rotor at rest.
        let read = if held {
            reply_at(state, REPLIES + PER_LANE * lane)
        } else {
            Err(DshotReplyError::NoReply)
        };
        put_reply(out, 1 + 4 * lane, read);
    }
    state[REPLIES_HELD] = 0;
    Ok(())
}

// ---- the view

// The 16 slots of the sequence that a lane is sending, out of the buffer that its mark names.
pub fn sending(
    bank: &[u16],
    first: &[u16],
    second: &[u16],
    motor: usize,
    out: &mut [u16],
) -> Result<(), Refusal>
    ensures value { status_number result ≡ number (answer_of (fit bank.now (sized 16 out.old)) (state_at bank.now (record { first = first.entry.now; second = second.now })) (Call.sending motor)) }
    ensures out_after { out.new ≡ out_after (answer_of (fit bank.now (sized 16 out.old)) (state_at bank.now (record { first = first.entry.now; second = second.now })) (Call.sending motor)) out.old }
{
    let state = bank.as_array::<SLOTS>().ok_or(Refusal::WrongLength)?;
    let out = out
        .as_mut_array::<COMPARE_DMA_SLOTS>()
        .ok_or(Refusal::WrongLength)?;
    let first: &Slots = first.as_array().ok_or(Refusal::WrongLength)?;
    let second: &Slots = second.as_array().ok_or(Refusal::WrongLength)?;
    if motor >= LANES {
        return Err(Refusal::NoSuchMotor);
    }
    let from = COMPARE_DMA_SLOTS * motor;
    let in_second = flag(state[IN_SECOND + motor]);
    let sent = if in_second { second } else { first };
    out.copy_from_slice(&sent[from..from + COMPARE_DMA_SLOTS]);
    Ok(())
}
