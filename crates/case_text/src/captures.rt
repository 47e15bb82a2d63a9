// Captures, which a record gives as runs of equal samples.

ghost use Rattle.std.specs.Prelude.{◌≡◌, ◌≤◌, ◌++◌, IfSome, length, take, replicate};
ghost use Rattle.case_text.specs.Captures.{unrolled};

// Writes one more run after the first `n` samples, and answers how many there are then.
fn add_run(out: &mut [u16], n: usize, sample: u64, times: u64) -> Option<usize>
    requires { n ≤ length out.old }
    ensures in_bounds { IfSome result (λ end. end ≤ length out.new) }
    ensures samples { IfSome result (λ end. take end out.new ≡ take n out.old ++ replicate times sample) }
{
    let sample = u16::try_from(sample).ok()?;
    let end = n.checked_add(usize::try_from(times).ok()?)?;
    if out.len() < end {
        return None;
    }
    out[n..end].fill(sample);
    Some(end)
}

// Writes out runs: each is a sample and how many times it comes. `stated` is how many runs there must be. Answers how many samples they have, if they can
// be read and fit the buffer.
#[tactic(auto, using(crate::proofs::CaptureLaws::more))]
pub fn unroll(runs: &[u64], stated: u64, out: &mut [u16]) -> Option<usize>
    ensures in_bounds { IfSome result (λ n. n ≤ length out.new) }
    ensures samples { IfSome result (λ n. take n out.new ≡ unrolled runs.now) }
{
    let (runs, rest) = runs.as_chunks::<2>();
    if runs.len() as u64 != stated || !rest.is_empty() {
        return None;
    }
    let mut n = 0;
    for &[sample, times] in runs {
        n = add_run(out, n, sample, times)?;
    }
    Some(n)
}
