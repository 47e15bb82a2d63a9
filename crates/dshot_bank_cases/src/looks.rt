// Makes the calls of codes 10 to 17 and 21: the replies, the looks, the view, and whether a release is due.

use crate::outcome::{Outcome, answered};
use crate::part::Part;
use crate::slots::Buffers;
use crate::{counts, part, replies};
use case_text::answers::status;
use dshot_bank::looks::ViewError;
use dshot_bank::{DshotBank, fallback_release_due};

// 10
pub(crate) fn take_replies(bank: DshotBank) -> Outcome {
    let taken = bank.take_replies();
    answered(replies::of_taken(taken.answer).as_slice(), taken.bank)
}

// 11
pub(crate) fn is_bidirectional(bank: DshotBank) -> Outcome {
    answered(&[u64::from(bank.is_bidirectional())], bank)
}

// 12
pub(crate) fn is_faulted(bank: DshotBank) -> Outcome {
    answered(&[u64::from(bank.is_faulted())], bank)
}

// 13
pub(crate) fn stats(bank: DshotBank) -> Outcome {
    answered(&counts::of_stats(bank.stats()), bank)
}

// 14
pub(crate) fn requested_values(bank: DshotBank) -> Outcome {
    answered(&bank.requested_values().map(u64::from), bank)
}

// 15
pub(crate) fn command_pending(bank: DshotBank) -> Outcome {
    answered(&[u64::from(bank.command_pending())], bank)
}

// 16
pub(crate) fn reply_stats(bank: DshotBank) -> Outcome {
    answered(
        counts::of_reply_stats(bank.reply_stats()).as_flattened(),
        bank,
    )
}

// A refusal's number, or 0 and the 16 slots of a view.
fn of_view(view: Result<&[u16], ViewError>) -> Option<Part> {
    let mut answer = part::of(&[status(view.map(|_| ()))]);
    for slot in view.unwrap_or(&[]) {
        answer.try_push(u64::from(*slot)).ok()?;
    }
    Some(answer)
}

// 17 MOTOR FIRST SECOND
pub(crate) fn view(given: &[u64], bank: DshotBank, buffers: &Buffers) -> Option<Outcome> {
    let &[motor, in_first, in_second] = given else {
        return None;
    };
    let [first, second] = buffers;
    let first = first.get(..in_first as usize)?;
    let second = second.get(..in_second as usize)?;
    let answer = of_view(bank.sending(first, second, motor as usize))?;
    Some(answered(answer.as_slice(), bank))
}

// 21 NOW LAST. It asks no bank.
pub(crate) fn release_due(given: &[u64], bank: DshotBank) -> Option<Outcome> {
    let [now_ms, last_release_ms] = given.as_array::<2>()?.try_map(u32::try_from).ok()?;
    let is_due = fallback_release_due(now_ms, last_release_ms);
    Some(answered(&[u64::from(is_due)], bank))
}
