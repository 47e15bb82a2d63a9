// Ported from crates/ferrowasp-stm32-critical/src/dshot_bank.rs of Eirik2020/ferro-wasp at commit 9cb8aca1a6, Copyright (c) 2026 Kaldstrand,
// under the Apache License, Version 2.0 (see NOTICE). Changed: ported to Rattle, with a promise for each call. The calls for one
// motor take its lane as a number, and refuse it above 3.
//
// The calls that command a bank: demands, runs of special commands, and telemetry requests.

ghost use Rattle.std.specs.Prelude.{◌≡◌, ℕ, None, nat_lt, replicate, if◌then◌else◌};
ghost use Rattle.std.specs.List.{list_any};
ghost use Rattle.dshot_reply_spec.specs.Answer.{refused};
ghost use Rattle.dshot_reply_spec.specs.Refusals.{no_such_motor};
ghost use Rattle.dshot_reply.specs.Answers.{answer};
ghost use Rattle.dshot_reply.specs.Refusals.{refusal_number};
ghost use Rattle.dshot.specs.Answers.{run_of};
ghost use Rattle.dshot_bank_spec.specs.State.{Buffers};
ghost use Rattle.dshot_bank_spec.specs.State as Spec;
ghost use Rattle.dshot_bank_spec.specs.Commands.{any_requested, is_running, command_throttles, command_special, request_telemetry};
ghost use Rattle.dshot_bank_spec.specs.With.{with_demand};
ghost use Rattle.dshot_bank_spec.specs.Calls as Call;
ghost use Rattle.dshot_bank_spec.specs.Calls.{done, motor_sent, commanded};
ghost use Rattle.dshot_bank_spec.specs.Steps.{step};
ghost use Rattle.dshot_bank.specs.States.{choice_of, demand_of, core_of, state_of, stepped};
ghost use Rattle.dshot_bank.specs.Answers.{init_error_number, command_error_number, special_error_number, request_error_number, done_answer, enabled_answer, throttled_answer, special_answer, requested_answer};

use crate::{Answered, Core, DSHOT_COMMAND_MAX, Demand, DshotBank, DshotMotor, LANES, MotorRun};
use dshot::{DshotCommandSequence, MotorValues, throttles_to_dshot};
use dshot_reply::refusals::Refusal;

#[derive(Clone, Copy, Debug, PartialEq, Eq)]
pub enum DshotInitError {
    // Bidirectional DShot was asked for, but a lane cannot receive replies.
    RepliesUnsupported,
}

#[derive(Clone, Copy, Debug, PartialEq, Eq)]
pub enum DshotCommandError {
    ThrottleOutOfRange,
    Faulted,
}

#[derive(Clone, Copy, Debug, PartialEq, Eq)]
pub enum DshotSpecialCommandError {
    // The lane is above 3.
    NoSuchMotor,
    Faulted,
    // A special command needs every motor stopped and no command lease.
    MotorsRunning,
    // A special-command run is already being sent.
    CommandPending,
}

#[derive(Clone, Copy, Debug, PartialEq, Eq)]
pub enum DshotTelemetryRequestError {
    // The lane is above 3.
    NoSuchMotor,
    Busy,
    Faulted,
}

impl From<DshotInitError> for Refusal {
    ghost from_gives = { λ e r. refusal_number r ≡ init_error_number e };

    fn from(error: DshotInitError) -> Refusal {
        match error {
            DshotInitError::RepliesUnsupported => Refusal::RepliesUnsupported,
        }
    }
}

impl From<DshotCommandError> for Refusal {
    ghost from_gives = { λ e r. refusal_number r ≡ command_error_number e };

    fn from(error: DshotCommandError) -> Refusal {
        match error {
            DshotCommandError::ThrottleOutOfRange => Refusal::ThrottleOutOfRange,
            DshotCommandError::Faulted => Refusal::BankFaulted,
        }
    }
}

impl From<DshotSpecialCommandError> for Refusal {
    ghost from_gives = { λ e r. refusal_number r ≡ special_error_number e };

    fn from(error: DshotSpecialCommandError) -> Refusal {
        match error {
            DshotSpecialCommandError::NoSuchMotor => Refusal::NoSuchMotor,
            DshotSpecialCommandError::Faulted => Refusal::BankFaulted,
            DshotSpecialCommandError::MotorsRunning => Refusal::MotorsRunning,
            DshotSpecialCommandError::CommandPending => Refusal::CommandPending,
        }
    }
}

impl From<DshotTelemetryRequestError> for Refusal {
    ghost from_gives = { λ e r. refusal_number r ≡ request_error_number e };

    fn from(error: DshotTelemetryRequestError) -> Refusal {
        match error {
            DshotTelemetryRequestError::NoSuchMotor => Refusal::NoSuchMotor,
            DshotTelemetryRequestError::Busy => Refusal::TelemetryPending,
            DshotTelemetryRequestError::Faulted => Refusal::BankFaulted,
        }
    }
}

pub type Enabled = Answered<Result<(), DshotInitError>>;

pub type Throttled = Answered<Result<(), DshotCommandError>>;

pub type Queued = Answered<Result<(), DshotSpecialCommandError>>;

pub type Requested = Answered<Result<(), DshotTelemetryRequestError>>;

pub type SentTaken = Answered<Option<DshotMotor>>;

// Whether one of the values is above this.
pub fn any_above(values: &MotorValues, most: u16) -> bool
    ensures { result ≡ list_any (nat_lt most) values.now }
{
    values.iter().any(|value| *value > most)
}

#[tactic(auto, using(crate::proofs::LaneTests::any_is))]
pub(crate) fn any_requested(values: MotorValues) -> bool
    ensures { result ≡ any_requested values }
{
    any_above(&values, 0)
}

impl Demand {
    fn is_running(self) -> bool
        ensures { result ≡ is_running (demand_of self) }
    {
        self.lease_duration_ms.is_some() || any_requested(self.requested_values)
    }

    pub(crate) fn stopped(self) -> Self
        ensures { result ≡ record { requested_values = replicate 4 0; lease_started_ms = self.lease_started_ms; lease_duration_ms = None } }
    {
        Demand {
            requested_values: [0; LANES],
            lease_duration_ms: None,
            ..self
        }
    }

    // What `command_throttles` does to the demand of a bank.
    #[tactic(auto, using(crate::proofs::LaneTests::any_is), unfolding(dshot_bank_spec::specs::Commands::command_throttles, dshot_bank_spec::specs::Commands::command_stop))]
    fn throttled(
        self,
        faulted: bool,
        commands: MotorValues,
        now_ms: u64,
        lease_duration_ms: u32,
    ) -> Result<Self, DshotCommandError>
        ensures { (k : Spec.Core) → k.demand ≡ demand_of self → k.frame.faulted ≡ faulted → answer (λ d. with_demand (demand_of d) k) command_error_number result ≡ command_throttles 4 commands now_ms lease_duration_ms k }
    {
        if faulted {
            return Err(DshotCommandError::Faulted);
        }
        if any_above(&commands, DSHOT_COMMAND_MAX) {
            return Err(DshotCommandError::ThrottleOutOfRange);
        }
        if !any_requested(commands) {
            return Ok(self.stopped());
        }
        Ok(Demand {
            requested_values: throttles_to_dshot(commands),
            lease_started_ms: now_ms,
            lease_duration_ms: Some(u64::from(lease_duration_ms)),
        })
    }
}

impl Core {
    #[tactic(auto, unfolding(dshot_bank_spec::specs::Commands::command_special))]
    fn queued(
        mut self,
        motor: usize,
        sequence: DshotCommandSequence,
    ) -> Result<Self, DshotSpecialCommandError>
        ensures { answer core_of special_error_number result ≡ (if nat_lt motor 4 then command_special motor (run_of sequence) (core_of self) else refused no_such_motor) }
    {
        let motor = DshotMotor::from_index(motor).ok_or(DshotSpecialCommandError::NoSuchMotor)?;
        if self.frame.faulted {
            return Err(DshotSpecialCommandError::Faulted);
        }
        if self.demand.is_running() {
            return Err(DshotSpecialCommandError::MotorsRunning);
        }
        if self.requests.command_sequence.is_some() {
            return Err(DshotSpecialCommandError::CommandPending);
        }
        self.requests.command_sequence = Some(MotorRun { motor, sequence });
        Ok(self)
    }

    #[tactic(auto, unfolding(dshot_bank_spec::specs::Commands::request_telemetry))]
    fn requested(mut self, motor: usize) -> Result<Self, DshotTelemetryRequestError>
        ensures { answer core_of request_error_number result ≡ (if nat_lt motor 4 then request_telemetry motor (core_of self) else refused no_such_motor) }
    {
        let motor = DshotMotor::from_index(motor).ok_or(DshotTelemetryRequestError::NoSuchMotor)?;
        if self.frame.faulted {
            return Err(DshotTelemetryRequestError::Faulted);
        }
        if self.requests.telemetry_request.is_some() {
            return Err(DshotTelemetryRequestError::Busy);
        }
        self.requests.telemetry_request = Some(motor);
        Ok(self)
    }
}

#[tactic(auto, unfolding(dshot_bank_spec::specs::Steps::step, dshot_bank_spec::specs::Steps::port_refusal))]
impl DshotBank {
    // The bank with the core that a command leaves. If it is refused, the bank stays.
    fn commanded<E: Copy>(mut self, done: Result<Core, E>) -> Answered<Result<(), E>>
        ensures { (number : E → ℕ) (b : Buffers) → stepped (done_answer number result.answer) result.bank b ≡ commanded (state_of self b) (answer core_of number done) }
    {
        match done {
            Ok(core) => {
                self.core = core;
                self.answering(Ok(()))
            }
            Err(error) => self.answering(Err(error)),
        }
    }

    // Switches to bidirectional DShot. It is meant for the time before the first frame, but a later call is not refused. Refused if a lane cannot
    // receive replies.
    #[tactic(auto, unfolding(dshot_bank_spec::specs::Steps::step, dshot_bank_spec::specs::Steps::port_refusal, dshot_bank_spec::specs::Commands::enable_bidirectional))]
    pub fn enable_bidirectional(mut self, receives_replies: bool) -> Enabled
        ensures { (b : Buffers) → stepped (enabled_answer result.answer) result.bank b ≡ step 4 (state_of self b) (Call.enable_bidirectional_call receives_replies) }
    {
        if !receives_replies {
            return self.answering(Err(DshotInitError::RepliesUnsupported));
        }
        self.core.frame.bidirectional = true;
        self.answering(Ok(()))
    }

    #[tactic(auto, unfolding(dshot_bank_spec::specs::Steps::step, dshot_bank_spec::specs::Steps::port_refusal, dshot_bank_spec::specs::Commands::command_stop))]
    pub fn command_stop(mut self) -> Self
        ensures { (b : Buffers) → stepped done result b ≡ step 4 (state_of self b) Call.command_stop_call }
    {
        self.core.demand = self.core.demand.stopped();
        self
    }

    pub fn command_throttles(
        mut self,
        commands: MotorValues,
        now_ms: u64,
        lease_duration_ms: u32,
    ) -> Throttled
        ensures { (b : Buffers) → stepped (throttled_answer result.answer) result.bank b ≡ step 4 (state_of self b) (Call.command_throttles_call commands now_ms lease_duration_ms) }
    {
        let faulted = self.core.frame.faulted;
        let throttled = self
            .core
            .demand
            .throttled(faulted, commands, now_ms, lease_duration_ms);
        // Only the demand is handed on, and the bank is returned at one place. Otherwise the call was slower.
        let answer = match throttled {
            Ok(demand) => {
                self.core.demand = demand;
                Ok(())
            }
            Err(error) => Err(error),
        };
        self.answering(answer)
    }

    // Queues a run of special-command frames for one motor, such as a spin direction change and save.
    //
    // Refused unless every motor is stopped with no command lease, so a command frame never replaces a throttle frame on a spinning motor.
    pub fn command_special(self, motor: usize, sequence: DshotCommandSequence) -> Queued
        ensures { (b : Buffers) → stepped (special_answer result.answer) result.bank b ≡ step 4 (state_of self b) (Call.command_special_call motor (run_of sequence)) }
    {
        self.commanded(self.core.queued(motor, sequence))
    }

    // Requests legacy UART telemetry from exactly one motor in the next frame that starts without a special command. A frame with a special command
    // leaves the request.
    pub fn request_telemetry(self, motor: usize) -> Requested
        ensures { (b : Buffers) → stepped (requested_answer result.answer) result.bank b ≡ step 4 (state_of self b) (Call.request_telemetry_call motor) }
    {
        self.commanded(self.core.requested(motor))
    }

    // Withdraws a telemetry request no frame has carried yet. The ESC manager has given up on it, so it must not reach an ESC later.
    #[tactic(auto, unfolding(dshot_bank_spec::specs::Steps::step, dshot_bank_spec::specs::Steps::port_refusal, dshot_bank_spec::specs::Commands::cancel_telemetry_request))]
    pub fn cancel_telemetry_request(mut self) -> Self
        ensures { (b : Buffers) → stepped done result b ≡ step 4 (state_of self b) Call.cancel_telemetry_request_call }
    {
        self.core.requests.telemetry_request = None;
        self
    }

    // Takes the lane whose telemetry bit was included in the frame started by the most recent `service` call.
    #[tactic(auto, unfolding(dshot_bank_spec::specs::Steps::step, dshot_bank_spec::specs::Steps::port_refusal, dshot_bank_spec::specs::Commands::clear_request_sent))]
    pub fn take_telemetry_request_sent(mut self) -> SentTaken
        ensures { (b : Buffers) → stepped (motor_sent (choice_of result.answer)) result.bank b ≡ step 4 (state_of self b) Call.take_telemetry_request_sent }
    {
        let motor = self.core.requests.telemetry_request_sent.take();
        self.answering(motor)
    }
}
