// Added: the exported calls on replies and the simulated ESC. They wrap those of the crate `dshot_reply`.

ghost use Rattle.std.specs.Prelude.{◌≡◌, not, ◌%◌, eqb};
ghost use Rattle.dshot_reply_spec.specs.Answer.{refusal_number, filled};
ghost use Rattle.dshot_reply_spec.specs.Gcr.{reply_word, decode_word};
ghost use Rattle.dshot_reply_spec.specs.Runs.{transitions_of};
ghost use Rattle.dshot_reply_spec.specs.Value.{reply_of};
ghost use Rattle.dshot_reply_spec.specs.Reading.{sampled_reply};
ghost use Rattle.dshot_reply_spec.specs.Simulate.{simulated};
ghost use Rattle.dshot_reply_spec.specs.Period.{period_value};
ghost use Rattle.dshot_reply_spec.specs.ValuePeriod.{value_period};
ghost use Rattle.dshot_reply.specs.Answers.{reading, period_told};
ghost use Rattle.kuzhenga.specs.Slots.{asked, one, halves, reading_slots, period_slots};

use crate::slots::{Slots, high, low, put};
use dshot_reply::period::{ValuePeriod, value_period};
use dshot_reply::refusals::{Refusal, status_number};
use dshot_reply::{
    DshotReply, decode_gcr, decode_sampled_reply, kind, reply_transitions, simulate,
};

// The reply word of `value` modulo 4096.
#[unsafe(no_mangle)]
pub extern "C" fn kuzhenga_reply_transitions_for(value: u32) -> u32
    ensures { result ≡ reply_word (value % 4096) }
{
    dshot_reply::reply_transitions_for((value % 4096) as u16)
}

// The transition bits of a capture, in two slots. Only the mask's low sixteen bits count.
#[unsafe(no_mangle)]
pub extern "C" fn kuzhenga_reply_transitions(
    samples: &[u16],
    pin_mask: u32,
    word: &mut [u16],
) -> u32
    ensures value { result ≡ refusal_number (asked 2 word.old (transitions_of 3 samples.now (pin_mask % 65536))) }
    ensures word_after { word.new ≡ filled halves word.old (asked 2 word.old (transitions_of 3 samples.now (pin_mask % 65536))) }
{
    status_number(put(word, || reply_transitions(samples, low(pin_mask))))
}

// The checked value of transition bits, in one slot.
#[unsafe(no_mangle)]
pub extern "C" fn kuzhenga_decode_gcr(transitions: u32, value: &mut [u16]) -> u32
    ensures value { result ≡ refusal_number (asked 1 value.old (decode_word transitions)) }
    ensures value_after { value.new ≡ filled one value.old (asked 1 value.old (decode_word transitions)) }
{
    status_number(put(value, || decode_gcr(transitions)))
}

// A reading in three slots: its kind in one, and its number in two.
impl Slots<3> for DshotReply {
    ghost slots = { λ reply. reading_slots (reading reply) };

    fn fill(&self, out: &mut [u16; 3]) {
        let number = kind::reading_number(*self);
        *out = [kind::kind_number(*self), low(number), high(number)];
    }
}

// The reading of `value` modulo 4096, in three slots.
#[unsafe(no_mangle)]
pub extern "C" fn kuzhenga_reply_from_value(
    value: u32,
    extended_telemetry: u32,
    out: &mut [u16],
) -> u32
    ensures value { result ≡ refusal_number (asked 3 out.old (reply_of (value % 4096) (not (eqb extended_telemetry 0)))) }
    ensures out_after { out.new ≡ filled reading_slots out.old (asked 3 out.old (reply_of (value % 4096) (not (eqb extended_telemetry 0)))) }
{
    let value = (value % 4096) as u16;
    status_number(put(
        out,
        || DshotReply::from_value(value, extended_telemetry != 0),
    ))
}

// The reading of a capture, in three slots. Only the mask's low sixteen bits count.
#[unsafe(no_mangle)]
pub extern "C" fn kuzhenga_decode_sampled_reply(
    samples: &[u16],
    pin_mask: u32,
    extended_telemetry: u32,
    out: &mut [u16],
) -> u32
    ensures value { result ≡ refusal_number (asked 3 out.old (sampled_reply 3 samples.now (pin_mask % 65536) (not (eqb extended_telemetry 0)))) }
    ensures out_after { out.new ≡ filled reading_slots out.old (asked 3 out.old (sampled_reply 3 samples.now (pin_mask % 65536) (not (eqb extended_telemetry 0)))) }
{
    let edt = extended_telemetry != 0;
    status_number(put(out, || decode_sampled_reply(samples, low(pin_mask), edt)))
}

// The value that the simulated ESC sends for a period, in one slot.
#[unsafe(no_mangle)]
pub extern "C" fn kuzhenga_period_value(period_us: u32, value: &mut [u16]) -> u32
    ensures value { result ≡ refusal_number (asked 1 value.old (period_value period_us)) }
    ensures value_after { value.new ≡ filled one value.old (asked 1 value.old (period_value period_us)) }
{
    status_number(put(value, || simulate::period_value(period_us)))
}

// A period in two slots: its microseconds and its step.
impl Slots<2> for ValuePeriod {
    ghost slots = { λ period. period_slots (period_told period) };

    fn fill(&self, out: &mut [u16; 2]) {
        *out = [self.period_us, self.step_us];
    }
}

// The period that `value` modulo 4096 stands for, and its step, in two slots.
#[unsafe(no_mangle)]
pub extern "C" fn kuzhenga_value_period(value: u32, period: &mut [u16]) -> u32
    ensures value { result ≡ refusal_number (asked 2 period.old (value_period (value % 4096))) }
    ensures period_after { period.new ≡ filled period_slots period.old (asked 2 period.old (value_period (value % 4096))) }
{
    status_number(put(period, || value_period((value % 4096) as u16)))
}

// The capture that the simulated ESC's reply of `value` modulo 4096 leaves in a buffer. Only the mask's low sixteen bits count.
#[unsafe(no_mangle)]
pub extern "C" fn kuzhenga_simulate_reply(
    samples: &mut [u16],
    value: u32,
    lead: usize,
    pin_mask: u32,
) -> u32
    ensures value { result ≡ refusal_number (simulated 3 samples.old (value % 4096) lead (pin_mask % 65536)) }
    ensures samples_after { samples.new ≡ filled (λ l. l) samples.old (simulated 3 samples.old (value % 4096) lead (pin_mask % 65536)) }
{
    let written = simulate::simulate_reply(samples, (value % 4096) as u16, lead, low(pin_mask));
    status_number(written.map_err(Refusal::from))
}
