// The static library for C. Each call is the call of the same name of the library `dshot_reply_bench`, with the same promise.
//
// tools/exports makes these files from those of `dshot_reply_bench`.

#![tactic(auto)]

ghost use Rattle.std.specs.Prelude.{◌≡◌};
ghost use Rattle.dshot_reply_bench.specs.Total.{total_from};

// The sum of what the words decode to.
#[unsafe(no_mangle)]
pub extern "C" fn bench_decode_gcr(words: &[u32]) -> u32
    ensures { result ≡ total_from 0 words.now }
{
    dshot_reply_bench::bench_decode_gcr(words)
}
