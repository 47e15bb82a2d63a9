// Structs of dshot as four numbers of a line, and back.

ghost use Rattle.std.specs.Prelude.{◌≡◌, ◌<◌, ◌^◌, ◌↔◌, ◌++◌, [], ◌∷◌, slice_index, IfSome, IsSome};

use dshot::{DshotCommandSequence, DshotTiming};

// The counts of a timing, in the source's order.
pub fn of_timing(timing: DshotTiming) -> [u64; 4]
    ensures { result ≡ timing.arr ∷ timing.zero_high ∷ timing.one_high ∷ timing.reply_sample_arr ∷ [] }
{
    [
        u64::from(timing.arr),
        u64::from(timing.zero_high),
        u64::from(timing.one_high),
        u64::from(timing.reply_sample_arr),
    ]
}

// The timing with these counts, if each fits 16 bits.
pub fn timing_of(numbers: [u64; 4]) -> Option<DshotTiming>
    ensures given { IfSome result (λ timing. numbers ≡ timing.arr ∷ timing.zero_high ∷ timing.one_high ∷ timing.reply_sample_arr ∷ []) }
    ensures taken { IsSome result ↔ (slice_index numbers 0 < 2 ^ 16) × (slice_index numbers 1 < 2 ^ 16) × (slice_index numbers 2 < 2 ^ 16) × (slice_index numbers 3 < 2 ^ 16) }
{
    let [arr, zero_high, one_high, reply_sample_arr] = numbers.try_map(u16::try_from).ok()?;
    Some(DshotTiming {
        arr,
        zero_high,
        one_high,
        reply_sample_arr,
    })
}

// The two commands of a run, its index and the repeats that are left.
pub fn of_run(run: DshotCommandSequence) -> [u64; 4]
    ensures { result ≡ run.commands ++ run.index ∷ run.repeats_left ∷ [] }
{
    let [first, second] = run.commands.map(u64::from);
    [
        first,
        second,
        u64::from(run.index),
        u64::from(run.repeats_left),
    ]
}

// The run with these numbers, if the commands fit 16 bits and the others fit 8.
pub fn run_of(numbers: [u64; 4]) -> Option<DshotCommandSequence>
    ensures given { IfSome result (λ run. numbers ≡ run.commands ++ run.index ∷ run.repeats_left ∷ []) }
    ensures taken { IsSome result ↔ (slice_index numbers 0 < 2 ^ 16) × (slice_index numbers 1 < 2 ^ 16) × (slice_index numbers 2 < 2 ^ 8) × (slice_index numbers 3 < 2 ^ 8) }
{
    let [first, second, index, left] = numbers;
    Some(DshotCommandSequence {
        commands: [first, second].try_map(u16::try_from).ok()?,
        index: u8::try_from(index).ok()?,
        repeats_left: u8::try_from(left).ok()?,
    })
}
