// Makes the call of code 8: a service.

use crate::numbers::flags;
use crate::outcome::{Outcome, answered};
use crate::part::of_event;
use crate::slots::{Buffers, ROOM};
use case_text::captures::unroll;
use dshot_bank::DshotBank;
use dshot_bank::replies::LaneAnswers;
use dshot_bank::service::Served;

const MOST_SAMPLES: usize = 700;

// 8 NOW TAKEN*4 PRESENT*4 MASK*4 FIRST SECOND CAPTURES RUNS (SAMPLE TIMES)*RUNS
//
// Lends as much of each buffer as the line says, which is no more than there is. The samples after the runs are zeros. The events count from 1, in the
// source's order.
pub(crate) fn service(given: &[u64], bank: DshotBank, buffers: &mut Buffers) -> Option<Outcome> {
    let [now_ms, answers @ ..] = given else {
        return None;
    };
    let (taken, answers) = answers.split_first_chunk::<4>()?;
    let (present, answers) = answers.split_first_chunk::<4>()?;
    let (masks, lengths) = answers.split_first_chunk::<4>()?;
    let [in_first, in_second, samples, stated, runs @ ..] = lengths else {
        return None;
    };
    let taken = flags(*taken)?;
    let present = flags(*present)?;
    let masks = masks.try_map(u16::try_from).ok()?;
    let answers = LaneAnswers {
        taken,
        present,
        masks,
    };
    let mut captures = [0; MOST_SAMPLES];
    let captures = captures.get_mut(..*samples as usize)?;
    unroll(runs, *stated, captures)?;
    let (first, second) = buffers.as_flattened_mut().split_at_mut(ROOM);
    let first = first.get_mut(..*in_first as usize)?;
    let second = second.get_mut(..*in_second as usize)?;
    let Served {
        answer,
        orders,
        first_duties,
        bank,
    } = bank.service(*now_ms, answers, first, second, captures);
    let event = answer.map(|event| event as u64 + 1);
    Some(Outcome {
        orders,
        first_duties,
        ..answered(&of_event(event), bank)
    })
}
