// The static library for C. Each call is the call of the same name of the library `dshot_bench`, with the same promise.
//
// tools/exports makes these files from those of `dshot_bench`.

#![tactic(auto)]

ghost use Rattle.std.specs.Prelude.{◌≡◌};
ghost use Rattle.dshot_reply_spec.specs.Answer.{refusal_number, filled};
ghost use Rattle.dshot_spec.specs.Packet.{lane};
ghost use Rattle.dshot_bench.specs.Sequences.{timing_of_counts, built, firsts_of, slots_of};

// The sequences of four values with inverted checksums, sixteen slots each, and their first duties.
#[unsafe(no_mangle)]
pub extern "C" fn bench_four_sequences(
    values: &[u16],
    telemetry_lane: usize,
    arr: u16,
    zero_high: u16,
    one_high: u16,
    reply_sample_arr: u16,
    slots: &mut [u16],
    firsts: &mut [u16],
) -> u32
    ensures value { result ≡ refusal_number (built values.now (lane telemetry_lane) slots.old firsts.old) }
    ensures slots_after { slots.new ≡ filled (slots_of (timing_of_counts arr zero_high one_high reply_sample_arr)) slots.old (built values.now (lane telemetry_lane) slots.old firsts.old) }
    ensures firsts_after { firsts.new ≡ filled (firsts_of (timing_of_counts arr zero_high one_high reply_sample_arr)) firsts.old (built values.now (lane telemetry_lane) slots.old firsts.old) }
{
    dshot_bench::bench_four_sequences(
        values,
        telemetry_lane,
        arr,
        zero_high,
        one_high,
        reply_sample_arr,
        slots,
        firsts,
    )
}
