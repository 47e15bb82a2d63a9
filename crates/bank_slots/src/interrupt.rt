// Ported from crates/ferrowasp-stm32-critical/src/dshot_bank.rs of Eirik2020/ferro-wasp at commit 9cb8aca1a6, Copyright (c) 2026 Kaldstrand, under
// the Apache License, Version 2.0 (see NOTICE). Changed: ported to Rattle, on a state in lent slots, with a promise for the call. The call refuses
// slices of other lengths and a lane above 3.
//
// The DMA interrupts of a bank.

ghost use Rattle.std.specs.Prelude.{◌≡◌, ◌+◌, true, false, [], ◌∷◌};
ghost use Rattle.dshot_reply.specs.Refusals.{status_number};
ghost use Rattle.dshot_bank_spec.specs.State.{Buffers};
ghost use Rattle.dshot_bank_spec.specs.Order.{Order};
ghost use Rattle.dshot_bank_spec.specs.OrderNumber.{code};
ghost use Rattle.dshot_bank_spec.specs.Interrupt as Spec;
ghost use Rattle.dshot_bank_spec.specs.Interrupt.{completion_bit, lane_done, frame_done, window_opened, window_closed, opens_window, after_lane};
ghost use Rattle.dshot_bank_spec.specs.Calls.{on_dma_interrupt_call};
ghost use Rattle.bank_slots_spec.specs.Load.{load};
ghost use Rattle.bank_slots_spec.specs.Moves.{Moves, on_core};
ghost use Rattle.bank_slots_spec.specs.Handles.{Handles};
ghost use Rattle.bank_slots_spec.specs.Called.{Called, fit, sized, state_at, answer_of};
ghost use Rattle.bank_slots_spec.specs.Outs.{interrupt_event, out_after};
ghost use Rattle.dshot_bank.specs.States.{motor_of};
ghost use Rattle.dshot_bank.specs.Interrupts.{interrupt_event_of};

use crate::memory::{bump, flag, put_word, word_at};
use crate::numbers::{BEGIN_RECEIVE, END_RECEIVE, LATCH_ORDERS, PAUSE_AND_CLEAR, STOP_FRAME, tell};
use crate::steps::latch_fault;
use crate::{
    BIDIRECTIONAL, BUSY, COMPLETION_MASK, FAULTED, FRAMES_COMPLETED, INTERRUPT_SLOTS,
    LANE_COMPLETIONS, RECEIVING, REPLIES_WAITING, SLOTS,
};
use dshot_bank::DshotMotor;
use dshot_bank::interrupt::{ALL_MOTORS_COMPLETE, DmaAnswers, DshotInterruptEvent};
use dshot_reply::refusals::Refusal;

// The bit of a motor in the mask. `DshotMotor::completion_bit` shifts, which costs each interrupt three instructions more.
fn completion_bit(motor: DshotMotor) -> u32
    ensures { result ≡ completion_bit (motor_of motor) }
{
    match motor {
        DshotMotor::Motor1 => 1,
        DshotMotor::Motor2 => 2,
        DshotMotor::Motor3 => 4,
        DshotMotor::Motor4 => 8,
    }
}

fn lane_done(state: &mut [u16; SLOTS], motor: DshotMotor)
    ensures { Moves (on_core (lane_done (motor_of motor))) state.old state.new }
{
    let mask = word_at(state, COMPLETION_MASK) | completion_bit(motor);
    put_word(state, COMPLETION_MASK, mask);
    if state[RECEIVING] == 0 {
        bump(state, LANE_COMPLETIONS + 2 * motor.index());
    }
}

fn frame_done(state: &mut [u16; SLOTS])
    ensures { Moves (on_core frame_done) state.old state.new }
{
    state[BUSY] = 0;
    bump(state, FRAMES_COMPLETED);
}

fn window_opened(state: &mut [u16; SLOTS])
    ensures { Moves (on_core window_opened) state.old state.new }
{
    state[RECEIVING] = 1;
    put_word(state, COMPLETION_MASK, 0);
}

fn window_closed(state: &mut [u16; SLOTS])
    ensures { Moves (on_core window_closed) state.old state.new }
{
    state[RECEIVING] = 0;
    state[REPLIES_WAITING] = 1;
    frame_done(state);
}

// A bidirectional frame set has transmitted.
#[tactic(auto, unfolding(bank_slots_spec::specs::Load::load))]
fn opens_window(state: &[u16; SLOTS]) -> bool
    ensures { result ≡ opens_window (load state.now).core.frame }
{
    flag(state[BIDIRECTIONAL]) && !flag(state[RECEIVING])
}

// The order to pause the lane's stream.
fn pause(motor: DshotMotor) -> u16
    ensures { result ≡ 48 + motor_of motor }
{
    PAUSE_AND_CLEAR + motor as u16
}

// Only the lane's pause.
fn tell_paused(out: &mut [u16; INTERRUPT_SLOTS], event: DshotInterruptEvent, motor: DshotMotor)
    ensures { out.new ≡ interrupt_event (interrupt_event_of event) ∷ 1 ∷ (48 + motor_of motor) ∷ 0 ∷ 0 ∷ 0 ∷ 0 ∷ 0 ∷ 0 ∷ [] }
{
    tell(out, event as u16, &[pause(motor)], &[]);
}

// The lane's pause, and one order for all lanes.
fn tell_order(out: &mut [u16; INTERRUPT_SLOTS], motor: DshotMotor, order: u16)
    ensures { out.new ≡ 0 ∷ 2 ∷ (48 + motor_of motor) ∷ order ∷ 0 ∷ 0 ∷ 0 ∷ 0 ∷ 0 ∷ [] }
{
    let event = DshotInterruptEvent::Completed;
    tell(out, event as u16, &[pause(motor), order], &[]);
}

// The lane's pause, and then a latched fault.
fn latched(
    state: &mut [u16; SLOTS],
    motor: DshotMotor,
    spurious: bool,
    event: DshotInterruptEvent,
    out: &mut [u16; INTERRUPT_SLOTS],
)
    ensures { Handles (Spec.latched 4 (motor_of motor) true false true true spurious (interrupt_event_of event) []) state.old state.new out.new }
{
    latch_fault(state, spurious);
    tell(out, event as u16, &[pause(motor)], &LATCH_ORDERS);
}

// The lane's pause, the order to turn around, and then a latched fault: a lane could not turn around.
fn latched_turning(
    state: &mut [u16; SLOTS],
    motor: DshotMotor,
    order: u16,
    out: &mut [u16; INTERRUPT_SLOTS],
)
    ensures { (o : Order) → order ≡ code o → Handles (Spec.latched 4 (motor_of motor) true false true true false Spec.faulted (o ∷ [])) state.old state.new out.new }
{
    latch_fault(state, false);
    let event = DshotInterruptEvent::Faulted;
    tell(out, event as u16, &[pause(motor), order], &LATCH_ORDERS);
}

// A lane has completed. After the last lane of a transmission, the receive window opens or the set is done. After the last window, the set is done.
fn after_lane(
    state: &mut [u16; SLOTS],
    motor: DshotMotor,
    answers: DmaAnswers,
    out: &mut [u16; INTERRUPT_SLOTS],
)
    ensures { Handles (after_lane 4 (motor_of motor) true false answers.turned answers.turned_back) state.old state.new out.new }
{
    if word_at(state, COMPLETION_MASK) != ALL_MOTORS_COMPLETE {
        tell_paused(out, DshotInterruptEvent::Completed, motor);
        return;
    }
    if opens_window(state) {
        if !answers.turned {
            latched_turning(state, motor, BEGIN_RECEIVE, out);
            return;
        }
        window_opened(state);
        tell_order(out, motor, BEGIN_RECEIVE);
        return;
    }
    if flag(state[RECEIVING]) {
        if !answers.turned_back {
            latched_turning(state, motor, END_RECEIVE, out);
            return;
        }
        window_closed(state);
        tell_order(out, motor, END_RECEIVE);
        return;
    }
    frame_done(state);
    tell_order(out, motor, STOP_FRAME);
}

fn handle(
    state: &mut [u16; SLOTS],
    motor: DshotMotor,
    answers: DmaAnswers,
    out: &mut [u16; INTERRUPT_SLOTS],
)
    ensures { Handles (Spec.on_dma_interrupt 4 (motor_of motor) answers.transfer_complete answers.dma_error answers.turned answers.turned_back) state.old state.new out.new }
{
    if flag(state[FAULTED]) {
        tell_paused(out, DshotInterruptEvent::Faulted, motor);
        return;
    }
    if !flag(state[BUSY]) || word_at(state, COMPLETION_MASK) & completion_bit(motor) != 0 {
        latched(state, motor, true, DshotInterruptEvent::Spurious, out);
        return;
    }
    if answers.dma_error {
        latched(state, motor, false, DshotInterruptEvent::Faulted, out);
        return;
    }
    if !answers.transfer_complete {
        latched(state, motor, true, DshotInterruptEvent::Spurious, out);
        return;
    }
    lane_done(state, motor);
    after_lane(state, motor, answers, out);
}

// `turned` and `turned_back` of the answers each count only if the Rust would ask for them. The answer takes nine slots: the event, the number of
// orders, and the orders.
#[tactic(auto, unfolding(bank_slots_spec::specs::Called::answer_of, bank_slots_spec::specs::Called::bank_after, bank_slots_spec::specs::Outs::out_after))]
pub fn on_dma_interrupt(
    bank: &mut [u16],
    motor: usize,
    answers: DmaAnswers,
    out: &mut [u16],
) -> Result<(), Refusal>
    ensures called { (b : Buffers) → Called (fit bank.old (sized 9 out.old)) (on_dma_interrupt_call motor answers.transfer_complete answers.dma_error answers.turned answers.turned_back) b bank.old bank.new (status_number result) }
    ensures out_after { (b : Buffers) → out.new ≡ out_after (answer_of (fit bank.old (sized 9 out.old)) (state_at bank.old b) (on_dma_interrupt_call motor answers.transfer_complete answers.dma_error answers.turned answers.turned_back)) out.old }
{
    let state = bank.as_mut_array::<SLOTS>().ok_or(Refusal::WrongLength)?;
    let out = out
        .as_mut_array::<INTERRUPT_SLOTS>()
        .ok_or(Refusal::WrongLength)?;
    let motor = DshotMotor::from_index(motor).ok_or(Refusal::NoSuchMotor)?;
    handle(state, motor, answers, out);
    Ok(())
}
