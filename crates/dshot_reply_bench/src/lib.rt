// Only for bench/: many calls of one function in a loop of the library's own. So the benchmark measures the call, and not the way to it from C.
#![tactic(auto)]

ghost use Rattle.std.specs.Prelude.{◌≡◌};
ghost use Rattle.dshot_reply_spec.specs.Gcr.{decode_word};
ghost use Rattle.dshot_reply_bench.specs.Total.{packed, total_from};

use dshot_reply::refusals::Refusal;

// What a word decodes to, as one number: the value, or 65536 x the refusal's number.
fn decoded(word: u32) -> u32
    ensures { result ≡ packed (decode_word word) }
{
    match dshot_reply::decode_gcr(word) {
        Ok(value) => u32::from(value),
        Err(error) => 65536 * Refusal::from(error).number(),
    }
}

// The sum of what the words decode to.
#[unsafe(no_mangle)]
pub extern "C" fn bench_decode_gcr(words: &[u32]) -> u32
    ensures { result ≡ total_from 0 words.now }
{
    words
        .iter()
        .fold(0, |sum: u32, word| sum.wrapping_add(decoded(*word)))
}
