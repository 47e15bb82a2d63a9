// Makes the call of code 9: an interrupt.

use crate::numbers::flags;
use crate::outcome::{Outcome, answered};
use crate::part::of_event;
use dshot_bank::DshotBank;
use dshot_bank::interrupt::DmaAnswers;

// 9 MOTOR COMPLETE ERROR TURNED BACK. The events count from 1, in the source's order.
pub(crate) fn on_dma_interrupt(given: &[u64], bank: DshotBank) -> Option<Outcome> {
    let &[motor, complete, error, turned, back] = given else {
        return None;
    };
    let [transfer_complete, dma_error, turned, turned_back] = flags([
        complete, error, turned, back,
    ])?;
    let answers = DmaAnswers {
        transfer_complete,
        dma_error,
        turned,
        turned_back,
    };
    let interrupted = bank.on_dma_interrupt(motor as usize, answers);
    let event = interrupted.answer.map(|event| event as u64 + 1);
    Some(Outcome {
        orders: interrupted.orders,
        ..answered(&of_event(event), interrupted.bank)
    })
}
