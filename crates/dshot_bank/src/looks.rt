// Ported from crates/ferrowasp-stm32-critical/src/dshot_bank.rs of Eirik2020/ferro-wasp at commit 9cb8aca1a6, Copyright (c) 2026 Kaldstrand,
// under the Apache License, Version 2.0 (see NOTICE). Changed: ported to Rattle, with a promise for each call; the view is added.
//
// The calls that only look at a bank, and the view of the sequence that a lane is sending.

ghost use Rattle.std.specs.Prelude.{◌≡◌};
ghost use Rattle.dshot_bank_spec.specs.State.{Buffers};
ghost use Rattle.dshot_bank_spec.specs.Calls as Call;
ghost use Rattle.dshot_bank_spec.specs.Calls.{Stepped, flag, counts, values};
ghost use Rattle.dshot_bank_spec.specs.Steps.{slots_fit, step};
ghost use Rattle.dshot_reply.specs.Refusals.{refusal_number};
ghost use Rattle.dshot_bank.specs.States.{stats_of, state_of, stepped};
ghost use Rattle.dshot_bank.specs.Views.{view_error_number, view_answer};

use crate::{DshotBank, DshotStats, LANES, SLOTS};
use dshot::{COMPARE_DMA_SLOTS, MotorValues};
use dshot_reply::refusals::Refusal;

// Why a view shows nothing.
#[derive(Clone, Copy, Debug, PartialEq, Eq)]
pub enum ViewError {
    WrongLength,
    NoSuchMotor,
}

impl From<ViewError> for Refusal {
    ghost from_gives = { λ e r. refusal_number r ≡ view_error_number e };

    fn from(error: ViewError) -> Refusal {
        match error {
            ViewError::WrongLength => Refusal::WrongLength,
            ViewError::NoSuchMotor => Refusal::NoSuchMotor,
        }
    }
}

pub fn buffers_fit(first: usize, second: usize) -> bool
    ensures { result ≡ slots_fit 4 first second }
{
    first == SLOTS && second == SLOTS
}

#[tactic(auto, unfolding(dshot_bank_spec::specs::Steps::step, dshot_bank_spec::specs::Steps::port_refusal))]
impl DshotBank {
    pub fn is_bidirectional(self) -> bool
        ensures { (b : Buffers) → stepped (flag result) self b ≡ step 4 (state_of self b) Call.is_bidirectional }
    {
        self.core.frame.bidirectional
    }

    pub fn is_faulted(self) -> bool
        ensures { (b : Buffers) → stepped (flag result) self b ≡ step 4 (state_of self b) Call.is_faulted }
    {
        self.core.frame.faulted
    }

    pub fn stats(self) -> DshotStats
        ensures { (b : Buffers) → stepped (counts (stats_of result)) self b ≡ step 4 (state_of self b) Call.stats }
    {
        self.core.stats
    }

    pub fn requested_values(self) -> MotorValues
        ensures { (b : Buffers) → stepped (values result) self b ≡ step 4 (state_of self b) Call.requested_values_call }
    {
        self.core.demand.requested_values
    }

    // Whether a special-command run is still being sent.
    pub fn command_pending(self) -> bool
        ensures { (b : Buffers) → stepped (flag result) self b ≡ step 4 (state_of self b) Call.command_pending_call }
    {
        self.core.requests.command_sequence.is_some()
    }

    // The 16 slots of the sequence that a lane is sending: a part of the buffer that its mark names.
    pub fn sending<'a>(
        self,
        first: &'a [u16],
        second: &'a [u16],
        motor: usize,
    ) -> Result<&'a [u16], ViewError>
        ensures { ◌≡◌ {A = Stepped} (stepped (view_answer result) self (record { first = first.entry.now; second = second.now })) (step 4 (state_of self (record { first = first.entry.now; second = second.now })) (Call.sending motor)) }
    {
        if !buffers_fit(first.len(), second.len()) {
            return Err(ViewError::WrongLength);
        }
        if motor >= LANES {
            return Err(ViewError::NoSuchMotor);
        }
        let from = COMPARE_DMA_SLOTS * motor;
        let to = from + COMPARE_DMA_SLOTS;
        if self.core.frame.in_second[motor] {
            Ok(&second[from..to])
        } else {
            Ok(&first[from..to])
        }
    }
}
