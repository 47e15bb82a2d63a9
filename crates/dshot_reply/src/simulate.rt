// Added: a simulated ESC, which turns a period into a value and writes the capture that a reply of a value leaves in a buffer.

ghost use Rattle.std.specs.Prelude.{◌≡◌, ◌+◌, ◌≤◌, length, replicate};
ghost use Rattle.dshot_reply_spec.specs.Answer.{refusal_number, filled};
ghost use Rattle.dshot_reply_spec.specs.Simulate.{next_level, level_sample, word_samples, simulated};
ghost use Rattle.dshot_reply_spec.specs.Period.{period_value};
ghost use Rattle.dshot_reply.specs.Answers.{simulate_error_number, simulated_number, period_answer};
ghost use Rattle.dshot_reply.specs.Refusals as Refusals;
ghost use Rattle.dshot_reply.specs.Steps.{simulated_refusal};

use crate::refusals::Refusal;
use crate::{MAX_REPLY_SAMPLES, REPLY_BITS, REPLY_SAMPLES_PER_BIT, reply_transitions_for};

// Why the simulated ESC sends nothing.
#[derive(Clone, Copy, Debug, PartialEq, Eq)]
pub enum SimulateError {
    PeriodOutOfRange,
    NoMask,
    WrongLength,
}

impl From<SimulateError> for Refusal {
    ghost from_gives = { λ e r. Refusals.refusal_number r ≡ simulate_error_number e };

    fn from(error: SimulateError) -> Refusal {
        match error {
            SimulateError::PeriodOutOfRange => Refusal::PeriodOutOfRange,
            SimulateError::NoMask => Refusal::NoSuchMotor,
            SimulateError::WrongLength => Refusal::WrongLength,
        }
    }
}

// The value of a period of 1 to 65535 us: halved until nine bits hold it, with the number of halvings as its exponent.
#[tactic(auto, using(crate::proofs::SimLaws::period_cases), unfolding(dshot_reply_spec::specs::Period::period_value))]
pub fn period_value(period_us: u32) -> Result<u16, SimulateError>
    ensures { period_answer result ≡ period_value period_us }
{
    if period_us == 0 || 65535 < period_us {
        return Err(SimulateError::PeriodOutOfRange);
    }
    let mut left = period_us;
    let mut exponent: u32 = 0;
    while 511 < left {
        left /= 2;
        exponent += 1;
    }
    Ok((exponent * 512 + left) as u16)
}

fn next_level(level: bool, transition: u32) -> bool
    ensures { result ≡ next_level level transition }
{
    if transition == 1 { !level } else { level }
}

fn level_sample(level: bool, pin_mask: u16) -> u16
    ensures { result ≡ level_sample pin_mask level }
{
    if level { pin_mask } else { 0 }
}

// Writes the bits of a word into a buffer of high samples, `REPLY_SAMPLES_PER_BIT` samples a bit.
fn write_bits(out: &mut [u16], lead: usize, pin_mask: u16, word: u32)
    requires { (lead + 63 ≤ length out.old) × (out.old ≡ replicate (length out.old) pin_mask) }
    ensures { out.new ≡ word_samples 3 word lead pin_mask (length out.old) }
{
    let mut level = true;
    for k in 0..REPLY_BITS {
        level = next_level(level, (word >> (REPLY_BITS - 1 - k)) % 2);
        let at = lead + REPLY_SAMPLES_PER_BIT * k as usize;
        out[at..at + REPLY_SAMPLES_PER_BIT].fill(level_sample(level, pin_mask));
    }
}

// Whether the simulated ESC can send into such a buffer: it needs room for the lead and two bits more than a reply, and a pin.
#[tactic(auto, unfolding(crate::specs::Steps::simulated_refusal))]
fn check(out_length: usize, lead: usize, pin_mask: u16) -> Result<(), SimulateError>
    ensures { simulated_number result ≡ simulated_refusal 3 out_length lead pin_mask }
{
    if out_length < MAX_REPLY_SAMPLES || out_length - MAX_REPLY_SAMPLES < lead {
        return Err(SimulateError::WrongLength);
    }
    if pin_mask == 0 {
        return Err(SimulateError::NoMask);
    }
    Ok(())
}

// Writes the capture of an ESC's reply of `value`: `lead` high samples, the reply, and high to the end of the buffer.
#[tactic(auto, using(crate::proofs::SimLaws::written_cases))]
pub fn simulate_reply(
    out: &mut [u16],
    value: u16,
    lead: usize,
    pin_mask: u16,
) -> Result<(), SimulateError>
    ensures status { simulated_number result ≡ refusal_number (simulated 3 out.old value lead pin_mask) }
    ensures out_after { out.new ≡ filled (λ l. l) out.old (simulated 3 out.old value lead pin_mask) }
{
    check(out.len(), lead, pin_mask)?;
    out.fill(pin_mask);
    write_bits(out, lead, pin_mask, reply_transitions_for(value));
    Ok(())
}
