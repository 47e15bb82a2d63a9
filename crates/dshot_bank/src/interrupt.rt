// Ported from crates/ferrowasp-stm32-critical/src/dshot_bank.rs of Eirik2020/ferro-wasp at commit 9cb8aca1a6, Copyright (c) 2026 Kaldstrand, under
// the Apache License, Version 2.0 (see NOTICE). Changed: ported to Rattle, with a promise for the call. The call refuses a lane above 3.
//
// The DMA interrupts of a bank.

ghost use Rattle.std.specs.Prelude.{◌≡◌, ◌<◌, ◌≤◌, true, false, List, ◌++◌, replicate};
ghost use Rattle.dshot_reply.specs.Refusals.{refusal_number};
ghost use Rattle.dshot_bank_spec.specs.State.{Buffers};
ghost use Rattle.dshot_bank_spec.specs.Order.{Order, latch_orders};
ghost use Rattle.dshot_bank_spec.specs.Send.{latch_fault};
ghost use Rattle.dshot_bank_spec.specs.Interrupt.{count_completion, lane_done, frame_done, window_opened, window_closed, opens_window, after_lane};
ghost use Rattle.dshot_bank_spec.specs.Interrupt as Spec;
ghost use Rattle.dshot_bank_spec.specs.Calls.{on_dma_interrupt_call};
ghost use Rattle.dshot_bank_spec.specs.Steps.{step};
ghost use Rattle.dshot_bank.specs.States.{motor_of, frame_of, stats_of, core_of, state_of, stepped};
ghost use Rattle.dshot_bank.specs.Orders.{held, orders_of, Begins, Just};
ghost use Rattle.dshot_bank.specs.Interrupts.{interrupt_error_number, interrupt_answer, Interrupts};

use crate::orders::{OrderKind, Orders};
use crate::send::Handled;
use crate::{Core, DshotBank, DshotMotor, DshotStats, Frame};
use dshot_reply::refusals::Refusal;

pub const ALL_MOTORS_COMPLETE: u32 = 0b1111;

#[derive(Clone, Copy, Debug, PartialEq, Eq)]
pub enum DshotInterruptEvent {
    Completed,
    Faulted,
    Spurious,
}

// Why an interrupt is no interrupt of a bank.
#[derive(Clone, Copy, Debug, PartialEq, Eq)]
pub enum InterruptError {
    // The lane is above 3.
    NoSuchMotor,
}

impl From<InterruptError> for Refusal {
    ghost from_gives = { λ e r. refusal_number r ≡ interrupt_error_number e };

    fn from(error: InterruptError) -> Refusal {
        match error {
            InterruptError::NoSuchMotor => Refusal::NoSuchMotor,
        }
    }
}

// What the hardware answers at a lane's interrupt: the status of its stream, whether every lane turned to receive, and whether every lane turned back.
#[derive(Clone, Copy, Debug, PartialEq, Eq)]
pub struct DmaAnswers {
    pub transfer_complete: bool,
    pub dma_error: bool,
    pub turned: bool,
    pub turned_back: bool,
}

// The answer of `on_dma_interrupt`, with the orders and the bank after it.
#[derive(Clone, Copy)]
pub struct Interrupted {
    pub answer: Result<DshotInterruptEvent, InterruptError>,
    pub orders: Orders,
    pub bank: DshotBank,
}

impl DshotStats {
    fn count_completion(mut self, motor: DshotMotor) -> Self
        ensures { stats_of result ≡ count_completion (motor_of motor) (stats_of self) }
    {
        let mut counts = self.lane_completions;
        // Each lane has a line of its own, because a known place stays in a register.
        match motor {
            DshotMotor::Motor1 => counts[0] = counts[0].wrapping_add(1),
            DshotMotor::Motor2 => counts[1] = counts[1].wrapping_add(1),
            DshotMotor::Motor3 => counts[2] = counts[2].wrapping_add(1),
            DshotMotor::Motor4 => counts[3] = counts[3].wrapping_add(1),
        }
        self.lane_completions = counts;
        self
    }
}

impl Frame {
    // A bidirectional frame set has transmitted.
    fn opens_window(self) -> bool
        ensures { result ≡ opens_window (frame_of self) }
    {
        self.bidirectional && !self.receiving
    }
}

impl Core {
    #[tactic(auto, unfolding(dshot_bank_spec::specs::Interrupt::lane_done))]
    fn lane_done(mut self, motor: DshotMotor) -> Self
        ensures { core_of result ≡ lane_done (motor_of motor) (core_of self) }
    {
        self.frame.completion_mask |= motor.completion_bit();
        if !self.frame.receiving {
            self.stats = self.stats.count_completion(motor);
        }
        self
    }

    #[tactic(auto, unfolding(dshot_bank_spec::specs::Interrupt::frame_done))]
    fn frame_done(mut self) -> Self
        ensures { core_of result ≡ frame_done (core_of self) }
    {
        self.frame.busy = false;
        self.stats.frames_completed = self.stats.frames_completed.wrapping_add(1);
        self
    }

    #[tactic(auto, unfolding(dshot_bank_spec::specs::Interrupt::window_opened))]
    fn window_opened(mut self) -> Self
        ensures { core_of result ≡ window_opened (core_of self) }
    {
        self.frame.receiving = true;
        self.frame.completion_mask = 0;
        self
    }

    #[tactic(auto, unfolding(dshot_bank_spec::specs::Interrupt::window_closed))]
    fn window_closed(mut self) -> Self
        ensures { core_of result ≡ window_closed (core_of self) }
    {
        self.frame.receiving = false;
        self.frame.replies_waiting = true;
        self.frame_done()
    }

    fn latched(
        self,
        spurious: bool,
        event: DshotInterruptEvent,
        orders: Orders,
    ) -> Handled<DshotInterruptEvent>
        requires { (orders.count ≤ 4) × (orders.codes < 268435456) }
        ensures { (result.event ≡ event) × (((l : List Order) → orders ≡ held l → result.orders ≡ held (l ++ latch_orders 4)) × (core_of result.core ≡ latch_fault 4 spurious (core_of self))) }
    {
        self.latch_fault(spurious).handled(event, orders.latched())
    }

    // A lane has completed. After the last lane of a transmission, the receive window opens or the set is done. After the last window, the set is
    // done.
    #[tactic(auto, unfolding(dshot_bank_spec::specs::Interrupt::after_lane))]
    fn after_lane(self, motor: DshotMotor, answers: DmaAnswers) -> Handled<DshotInterruptEvent>
        ensures { Interrupts result (after_lane 4 (motor_of motor) true false answers.turned answers.turned_back (core_of self)) }
    {
        let paused = Orders::paused(motor);
        if self.frame.completion_mask != ALL_MOTORS_COMPLETE {
            return self.handled(DshotInterruptEvent::Completed, paused);
        }
        if self.frame.opens_window() {
            let orders = paused.then(OrderKind::BeginReceive);
            if answers.turned {
                return self
                    .window_opened()
                    .handled(DshotInterruptEvent::Completed, orders);
            }
            return self.latched(false, DshotInterruptEvent::Faulted, orders);
        }
        if self.frame.receiving {
            let orders = paused.then(OrderKind::EndReceive);
            if answers.turned_back {
                return self
                    .window_closed()
                    .handled(DshotInterruptEvent::Completed, orders);
            }
            return self.latched(false, DshotInterruptEvent::Faulted, orders);
        }
        let orders = paused.then(OrderKind::StopFrame);
        self.frame_done()
            .handled(DshotInterruptEvent::Completed, orders)
    }

    #[tactic(auto, unfolding(dshot_bank_spec::specs::Interrupt::on_dma_interrupt, dshot_spec::specs::Tabulate::tabulate))]
    fn on_dma_interrupt(
        self,
        motor: DshotMotor,
        answers: DmaAnswers,
    ) -> Handled<DshotInterruptEvent>
        ensures { Interrupts result (Spec.on_dma_interrupt 4 (motor_of motor) answers.transfer_complete answers.dma_error answers.turned answers.turned_back (core_of self)) }
    {
        let paused = Orders::paused(motor);
        if self.frame.faulted {
            return self.handled(DshotInterruptEvent::Faulted, paused);
        }
        if !self.frame.busy || self.frame.completion_mask & motor.completion_bit() != 0 {
            return self.latched(true, DshotInterruptEvent::Spurious, paused);
        }
        if answers.dma_error {
            return self.latched(false, DshotInterruptEvent::Faulted, paused);
        }
        if !answers.transfer_complete {
            return self.latched(true, DshotInterruptEvent::Spurious, paused);
        }
        self.lane_done(motor).after_lane(motor, answers)
    }
}

#[tactic(auto, unfolding(dshot_bank_spec::specs::Steps::step, dshot_bank_spec::specs::Steps::port_refusal))]
impl DshotBank {
    // `turned` and `turned_back` count only if the Rust would ask for them.
    pub fn on_dma_interrupt(mut self, motor: usize, answers: DmaAnswers) -> Interrupted
        ensures b_value { (b : Buffers) → stepped (interrupt_answer result.answer (orders_of result.orders (replicate 4 0))) result.bank b ≡ step 4 (state_of self b) (on_dma_interrupt_call motor answers.transfer_complete answers.dma_error answers.turned answers.turned_back) }
        ensures just { Just result.orders (replicate 4 0) (interrupt_answer result.answer (orders_of result.orders (replicate 4 0))) }
    {
        let Some(motor) = DshotMotor::from_index(motor) else {
            return Interrupted {
                answer: Err(InterruptError::NoSuchMotor),
                orders: Orders::none(),
                bank: self,
            };
        };
        let handled = self.core.on_dma_interrupt(motor, answers);
        self.core = handled.core;
        Interrupted {
            answer: Ok(handled.event),
            orders: handled.orders,
            bank: self,
        }
    }
}
