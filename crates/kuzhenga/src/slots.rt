// Added, for the exported calls: how an answer is put into slots, and how numbers and timings lie in them.

ghost use Rattle.std.specs.Prelude.{◌≡◌, ◌≢◌, ◌≤◌, ◌/◌, ◌%◌, ℕ, List, Result, Ok, Err, MatchResult, IsErrAnd, length};
ghost use Rattle.dshot_reply_spec.specs.Answer.{Answer, refusal_number, filled};
ghost use Rattle.dshot_reply.specs.Answers.{answer};
ghost use Rattle.dshot_reply.specs.Refusals.{refusal_number as number_of, status_number};
ghost use Rattle.dshot.specs.Answers.{timing_of};
ghost use Rattle.kuzhenga.specs.Slots.{asked, one, halves};
ghost use Rattle.kuzhenga.specs.FrameSlots.{timing_at};

use dshot::{DshotTiming, MotorValues};
use dshot_reply::refusals::Refusal;

// What lies in `N` slots.
pub(crate) trait Slots<const N: usize>: Drop {
    ghost slots: { Self → List ℕ };

    fn fill(&self, out: &mut [u16; N])
        ensures { out.new ≡ slots self.now };
}

// A number in one slot.
impl Slots<1> for u16 {
    ghost slots = { one };

    fn fill(&self, out: &mut [u16; 1]) {
        *out = [*self];
    }
}

// A number in two slots, its low bits first.
impl Slots<2> for u32 {
    ghost slots = { halves };

    fn fill(&self, out: &mut [u16; 2]) {
        *out = [low(*self), high(*self)];
    }
}

impl Slots<4> for MotorValues {
    ghost slots = { λ values. values };

    fn fill(&self, out: &mut [u16; 4]) {
        *out = *self;
    }
}

// Puts an answer into its slots. If it is a refusal, they stay as they were. The number of slots is tested before the answer is made.
// `few` bounds the bytes of the slots. No answer takes more than four.
#[inline(always)]
pub(crate) fn put<const N: usize, T, E, F>(out: &mut [u16], make: F) -> Result<(), Refusal>
where
    T: Slots<N>,
    E: Into<Refusal> + Drop,
    F: FnOnce() -> Result<T, E> + Drop,
    requires few { N ≤ 4 }
    requires callable { F.IsAlwaysCallable make }
    ensures wrong_length { length out.old ≢ N → (result ≡ Err Refusal.WrongLength) × (out.new ≡ out.old) }
    ensures answered { length out.old ≡ N → (r : _) × F.post make r
        × MatchResult r
        (λ x. (result ≡ Ok tt) × (out.new ≡ T.slots x))
        (λ e. IsErrAnd result (E.converts e) × (out.new ≡ out.old)) }
{
    let out = out.as_mut_array::<N>().ok_or(Refusal::WrongLength)?;
    make().map_err(E::into)?.fill(out);
    Ok(())
}

// The timing in four slots.
pub(crate) fn timing_at(slots: &[u16; 4]) -> DshotTiming
    ensures { timing_of result ≡ timing_at slots.now }
{
    DshotTiming {
        arr: slots[0],
        zero_high: slots[1],
        one_high: slots[2],
        reply_sample_arr: slots[3],
    }
}

// The low sixteen bits of a number.
pub(crate) fn low(number: u32) -> u16
    ensures { result ≡ number % 65536 }
{
    (number % 65536) as u16
}

// The high sixteen bits.
pub(crate) fn high(number: u32) -> u16
    ensures { result ≡ number / 65536 }
{
    (number / 65536) as u16
}
