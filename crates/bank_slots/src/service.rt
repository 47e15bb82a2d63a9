// Ported from crates/ferrowasp-stm32-critical/src/dshot_bank.rs of Eirik2020/ferro-wasp at commit 9cb8aca1a6, Copyright (c) 2026 Kaldstrand, under
// the Apache License, Version 2.0 (see NOTICE). Changed: ported to Rattle, on a state in lent slots, with a promise for the call. The call refuses
// slices of other lengths.
//
// The service of a bank: the lease, the frame in flight, the replies that wait, and the next frame set.

ghost use Rattle.std.specs.Prelude.{◌≡◌, Bool, true, false, ◌∷◌, replicate, if◌then◌else◌};
ghost use Rattle.dshot_reply.specs.Refusals.{status_number};
ghost use Rattle.dshot_bank_spec.specs.State.{Core, Buffers};
ghost use Rattle.dshot_bank_spec.specs.Send.{latch_fault};
ghost use Rattle.dshot_bank_spec.specs.Service as Spec;
ghost use Rattle.dshot_bank_spec.specs.Service.{demand_expired, expire_lease, service_busy};
ghost use Rattle.dshot_bank_spec.specs.Calls.{service_call};
ghost use Rattle.bank_slots_spec.specs.Load.{load};
ghost use Rattle.bank_slots_spec.specs.Moves.{Moves, on_core};
ghost use Rattle.bank_slots_spec.specs.Handles.{Skips, Serves};
ghost use Rattle.bank_slots_spec.specs.Called.{Called, fit, sized, state_at, answer_of, buffers_after};
ghost use Rattle.bank_slots_spec.specs.Outs.{service_event, out_after};
ghost use Rattle.bank_slots_spec.specs.Arguments.{taken, present, masks};
ghost use Rattle.dshot_bank.specs.Serves.{service_event_of};

use crate::memory::{bump, flag, long_at};
use crate::numbers::{LATCH_ORDERS, tell};
use crate::replies::read_replies;
use crate::send::send;
use crate::steps::{latch_fault, stop};
use crate::{
    BUSY, BUSY_SKIPS, FAULTED, FRAME_TIMEOUTS, LANES_SLOTS, LEASE_EXPIRIES, LEASE_OVER,
    LEASE_STARTED, REQUEST_SENT, SERVICE_SLOTS, SLOTS, STARTED,
};
use dshot_bank::service::DshotServiceEvent;
use dshot_bank::{DSHOT_FRAME_TIMEOUT_MS, Samples, Slots};
use dshot_reply::refusals::Refusal;

#[tactic(auto, unfolding(bank_slots_spec::specs::Load::load, dshot_bank_spec::specs::Service::demand_expired, dshot_spec::specs::Lease::lease_expired))]
fn expired(state: &[u16; SLOTS], now_ms: u64) -> bool
    ensures { result ≡ demand_expired now_ms (load state.now).core.demand }
{
    let lease = long_at(state, LEASE_OVER);
    lease != 0 && now_ms.wrapping_sub(long_at(state, LEASE_STARTED)) >= lease
}

fn end_lease(state: &mut [u16; SLOTS])
    ensures { Moves (on_core (expire_lease 4 true)) state.old state.new }
{
    stop(state);
    bump(state, LEASE_EXPIRIES);
}

fn count_busy_skip(state: &mut [u16; SLOTS])
    ensures { Moves (on_core Spec.count_busy_skip) state.old state.new }
{
    bump(state, BUSY_SKIPS);
}

fn time_out(state: &mut [u16; SLOTS])
    ensures { Moves (on_core (λ (c : Core). latch_fault 4 false (Spec.count_timeout c))) state.old state.new }
{
    bump(state, FRAME_TIMEOUTS);
    latch_fault(state, false);
}

// An event without orders.
fn tell_event(out: &mut [u16; SERVICE_SLOTS], event: DshotServiceEvent)
    ensures { out.new ≡ service_event (service_event_of event) ∷ replicate 14 0 }
{
    tell(out, event as u16, &[], &[]);
}

// A frame is in flight.
fn serve_busy(
    state: &mut [u16; SLOTS],
    now_ms: u64,
    lease_expired: bool,
    out: &mut [u16; SERVICE_SLOTS],
)
    ensures { Skips (service_busy 4 now_ms lease_expired) state.old state.new out.new }
{
    count_busy_skip(state);
    if dshot::command_lease_expired(long_at(state, STARTED), DSHOT_FRAME_TIMEOUT_MS, now_ms) {
        time_out(state);
        tell(out, DshotServiceEvent::Faulted as u16, &[], &LATCH_ORDERS);
        return;
    }
    let event = if lease_expired {
        DshotServiceEvent::LeaseExpired
    } else {
        DshotServiceEvent::Busy
    };
    tell_event(out, event);
}

fn serve(
    state: &mut [u16; SLOTS],
    now_ms: u64,
    lanes: &[u16; LANES_SLOTS],
    first: &mut Slots,
    second: &mut Slots,
    captures: &Samples,
    out: &mut [u16; SERVICE_SLOTS],
)
    ensures { Serves (Spec.service 4 now_ms (taken lanes.now) (present lanes.now) (masks lanes.now) captures.now) (record { first = first.entry.now; second = second.old }) (record { first = first.exit.now; second = second.new }) state.old state.new out.new }
{
    state[REQUEST_SENT] = 0;
    if flag(state[FAULTED]) {
        tell_event(out, DshotServiceEvent::Faulted);
        return;
    }
    let lease_expired = expired(state, now_ms);
    if lease_expired {
        end_lease(state);
    }
    if flag(state[BUSY]) {
        serve_busy(state, now_ms, lease_expired, out);
        return;
    }
    read_replies(state, lanes, captures);
    send(state, now_ms, lease_expired, lanes, first, second, out);
}

// `lanes` has twelve slots: for each lane whether it took its buffer, then whether it has a capture, then the mask of its capture. The answer takes
// fifteen slots: the event, the number of orders, the orders, and the first duties.
pub fn service(
    bank: &mut [u16],
    now_ms: u64,
    lanes: &[u16],
    first: &mut [u16],
    second: &mut [u16],
    captures: &[u16],
    out: &mut [u16],
) -> Result<(), Refusal>
    ensures called { Called (fit bank.old (if sized 12 lanes.now then sized 15 out.old else false)) (service_call now_ms (taken lanes.now) (present lanes.now) (masks lanes.now) captures.now) (record { first = first.entry.now; second = second.old }) bank.old bank.new (status_number result) }
    ensures fact { ◌≡◌ {A = Buffers} (record { first = first.exit.now; second = second.new }) (buffers_after (fit bank.old (if sized 12 lanes.now then sized 15 out.old else false)) (state_at bank.old (record { first = first.entry.now; second = second.old })) (service_call now_ms (taken lanes.now) (present lanes.now) (masks lanes.now) captures.now)) }
    ensures out_after { out.new ≡ out_after (answer_of (fit bank.old (if sized 12 lanes.now then sized 15 out.old else false)) (state_at bank.old (record { first = first.entry.now; second = second.old })) (service_call now_ms (taken lanes.now) (present lanes.now) (masks lanes.now) captures.now)) out.old }
{
    let state = bank.as_mut_array::<SLOTS>().ok_or(Refusal::WrongLength)?;
    let lanes = lanes.as_array::<LANES_SLOTS>().ok_or(Refusal::WrongLength)?;
    let out = out
        .as_mut_array::<SERVICE_SLOTS>()
        .ok_or(Refusal::WrongLength)?;
    let first = first.as_mut_array().ok_or(Refusal::WrongLength)?;
    let second = second.as_mut_array().ok_or(Refusal::WrongLength)?;
    let captures = captures.as_array().ok_or(Refusal::WrongLength)?;
    serve(state, now_ms, lanes, first, second, captures, out);
    Ok(())
}
