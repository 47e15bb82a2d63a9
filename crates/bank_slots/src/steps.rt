// Ported from crates/ferrowasp-stm32-critical/src/dshot_bank.rs of Eirik2020/ferro-wasp at commit 9cb8aca1a6, Copyright (c) 2026 Kaldstrand,
// under the Apache License, Version 2.0 (see NOTICE). Changed: ported to Rattle, on a state in lent slots, with a promise for each step.
//
// The steps on a bank's state that several calls share: a stop, a run put or cleared, and a latched fault.

ghost use Rattle.std.specs.Prelude.{◌≡◌, ◌+◌};
ghost use Rattle.std.proofs.Math.Option.{none};
ghost use Rattle.dshot.specs.Answers.{run_of};
ghost use Rattle.dshot_bank_spec.specs.Commands.{command_stop};
ghost use Rattle.dshot_bank_spec.specs.With.{with_command_sequence};
ghost use Rattle.dshot_bank_spec.specs.Send.{latch_fault};
ghost use Rattle.bank_slots_spec.specs.Memory.{at};
ghost use Rattle.bank_slots_spec.specs.Places as Places;
ghost use Rattle.bank_slots_spec.specs.Load.{load, run_from};
ghost use Rattle.bank_slots_spec.specs.Moves.{Moves, on_core};
ghost use Rattle.bank_slots_spec.specs.Parts.{fault_counted, flags_latched, requests_cleared, queued};
ghost use Rattle.dshot_bank.specs.States.{motor_of};

use crate::memory::bump;
use crate::{
    BUSY, DMA_FAULTS, FAULTED, LEASE_OVER, LEASE_STARTED, RECEIVING, REPLIES_WAITING, REQUEST, RUN,
    SLOTS, SPURIOUS, VALUES,
};
use dshot::{DshotCommandSequence, MotorValues};
use dshot_bank::DshotMotor;
use std::array;

#[tactic(auto, unfolding(bank_slots_spec::specs::Load::load))]
pub(crate) fn values_at(state: &[u16; SLOTS]) -> MotorValues
    ensures { result ≡ (load state.now).core.demand.requested_values }
{
    array::from_fn(|lane| state[VALUES + lane])
}

pub(crate) fn clear_run(state: &mut [u16; SLOTS])
    ensures { Moves (on_core (with_command_sequence none)) state.old state.new }
{
    state[RUN..BUSY].fill(0);
}

// The run in four slots, of an argument or of the state. An index above 255 is spent, as 255 is. Only the low byte of the last slot counts.
pub(crate) fn run_from(run: &[u16; 4]) -> DshotCommandSequence
    ensures { run_of result ≡ run_from 0 (at run.now) }
{
    let [first, second, index, repeats] = *run;
    DshotCommandSequence {
        commands: [first, second],
        index: index.min(255) as u8,
        repeats_left: (repeats % 256) as u8,
    }
}

// The run in the state's slots.
pub(crate) fn run_at(state: &[u16; SLOTS]) -> DshotCommandSequence
    ensures { run_of result ≡ run_from (Places.RUN + 1) (at state.now) }
{
    run_from(&[
        state[RUN + 1],
        state[RUN + 2],
        state[RUN + 3],
        state[RUN + 4],
    ])
}

pub(crate) fn put_run(state: &mut [u16; SLOTS], motor: DshotMotor, run: DshotCommandSequence)
    ensures { Moves (on_core (queued (motor_of motor) (run_of run))) state.old state.new }
{
    let [first, second] = run.commands;
    state[RUN] = motor as u16 + 1;
    state[RUN + 1] = first;
    state[RUN + 2] = second;
    state[RUN + 3] = u16::from(run.index);
    state[RUN + 4] = u16::from(run.repeats_left);
}

pub(crate) fn stop(state: &mut [u16; SLOTS])
    ensures { Moves (on_core (command_stop 4)) state.old state.new }
{
    state[VALUES..LEASE_STARTED].fill(0);
    state[LEASE_OVER..REQUEST].fill(0);
}

// ---- a fault

fn count_fault(state: &mut [u16; SLOTS], spurious: bool)
    ensures { Moves (on_core (fault_counted spurious)) state.old state.new }
{
    if state[FAULTED] == 0 {
        bump(state, DMA_FAULTS);
    }
    if spurious {
        bump(state, SPURIOUS);
    }
}

fn latch_flags(state: &mut [u16; SLOTS])
    ensures { Moves (on_core flags_latched) state.old state.new }
{
    state[FAULTED] = 1;
    state[BUSY] = 0;
    state[RECEIVING] = 0;
    state[REPLIES_WAITING] = 0;
}

// Clears the pending request, the one that was sent, and the run.
fn clear_requests(state: &mut [u16; SLOTS])
    ensures { Moves (on_core requests_cleared) state.old state.new }
{
    state[REQUEST..BUSY].fill(0);
}

// Latches a fault. The caller gives its orders.
pub(crate) fn latch_fault(state: &mut [u16; SLOTS], spurious: bool)
    ensures { Moves (on_core (latch_fault 4 spurious)) state.old state.new }
{
    count_fault(state, spurious);
    latch_flags(state);
    clear_requests(state);
    stop(state);
}
