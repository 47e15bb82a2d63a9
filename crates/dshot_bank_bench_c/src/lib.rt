// The static library for C. Each call is the call of the same name of the library `dshot_bank_bench`, with the same promise.
//
// tools/exports makes these files from those of `dshot_bank_bench`.

#![tactic(auto)]

ghost use Rattle.std.specs.Prelude.{◌≡◌};
ghost use Rattle.dshot_reply_spec.specs.Answer.{refusal_number, filled};
ghost use Rattle.dshot_bank_bench.specs.Cycles.{asked, first_of, second_of, counts_of};

// Makes as many cycles of a new bank as there are captures for. Each cycle has 640 samples and four throttles. The call leaves the two buffers, and
// 24 numbers of the bank. In a flag, 0 means no, and any other number means yes.
#[unsafe(no_mangle)]
pub extern "C" fn bench_bank_cycles(
    arr: u16,
    zero_high: u16,
    one_high: u16,
    reply_sample_arr: u16,
    bidirectional: u32,
    present: u32,
    mask: u16,
    interrupts: usize,
    throttles: &[u16],
    captures: &[u16],
    first: &mut [u16],
    second: &mut [u16],
    counts: &mut [u32],
) -> u32
    ensures value { result ≡ refusal_number (asked arr zero_high one_high reply_sample_arr bidirectional present mask interrupts throttles.now captures.now first.old second.old counts.old) }
    ensures first_after { first.new ≡ filled first_of first.old (asked arr zero_high one_high reply_sample_arr bidirectional present mask interrupts throttles.now captures.now first.old second.old counts.old) }
    ensures second_after { second.new ≡ filled second_of second.old (asked arr zero_high one_high reply_sample_arr bidirectional present mask interrupts throttles.now captures.now first.old second.old counts.old) }
    ensures counts_after { counts.new ≡ filled counts_of counts.old (asked arr zero_high one_high reply_sample_arr bidirectional present mask interrupts throttles.now captures.now first.old second.old counts.old) }
{
    dshot_bank_bench::bench_bank_cycles(
        arr,
        zero_high,
        one_high,
        reply_sample_arr,
        bidirectional,
        present,
        mask,
        interrupts,
        throttles,
        captures,
        first,
        second,
        counts,
    )
}
