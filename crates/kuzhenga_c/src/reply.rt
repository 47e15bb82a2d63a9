// The calls of crates/kuzhenga/src/reply.rt.

ghost use Rattle.std.specs.Prelude.{◌≡◌, not, ◌%◌, eqb};
ghost use Rattle.dshot_reply_spec.specs.Answer.{refusal_number, filled};
ghost use Rattle.dshot_reply_spec.specs.Gcr.{reply_word, decode_word};
ghost use Rattle.dshot_reply_spec.specs.Runs.{transitions_of};
ghost use Rattle.dshot_reply_spec.specs.Value.{reply_of};
ghost use Rattle.dshot_reply_spec.specs.Reading.{sampled_reply};
ghost use Rattle.dshot_reply_spec.specs.Simulate.{simulated};
ghost use Rattle.dshot_reply_spec.specs.Period.{period_value};
ghost use Rattle.dshot_reply_spec.specs.ValuePeriod.{value_period};
ghost use Rattle.kuzhenga.specs.Slots.{asked, one, halves, reading_slots, period_slots};

// The reply word of `value` modulo 4096.
#[unsafe(no_mangle)]
pub extern "C" fn kuzhenga_reply_transitions_for(value: u32) -> u32
    ensures { result ≡ reply_word (value % 4096) }
{
    kuzhenga::reply::kuzhenga_reply_transitions_for(value)
}

// The transition bits of a capture, in two slots. Only the mask's low sixteen bits count.
#[unsafe(no_mangle)]
pub extern "C" fn kuzhenga_reply_transitions(
    samples: &[u16],
    pin_mask: u32,
    word: &mut [u16],
) -> u32
    ensures value { result ≡ refusal_number (asked 2 word.old (transitions_of 3 samples.now (pin_mask % 65536))) }
    ensures word_after { word.new ≡ filled halves word.old (asked 2 word.old (transitions_of 3 samples.now (pin_mask % 65536))) }
{
    kuzhenga::reply::kuzhenga_reply_transitions(samples, pin_mask, word)
}

// The checked value of transition bits, in one slot.
#[unsafe(no_mangle)]
pub extern "C" fn kuzhenga_decode_gcr(transitions: u32, value: &mut [u16]) -> u32
    ensures value { result ≡ refusal_number (asked 1 value.old (decode_word transitions)) }
    ensures value_after { value.new ≡ filled one value.old (asked 1 value.old (decode_word transitions)) }
{
    kuzhenga::reply::kuzhenga_decode_gcr(transitions, value)
}

// The reading of `value` modulo 4096, in three slots.
#[unsafe(no_mangle)]
pub extern "C" fn kuzhenga_reply_from_value(
    value: u32,
    extended_telemetry: u32,
    out: &mut [u16],
) -> u32
    ensures value { result ≡ refusal_number (asked 3 out.old (reply_of (value % 4096) (not (eqb extended_telemetry 0)))) }
    ensures out_after { out.new ≡ filled reading_slots out.old (asked 3 out.old (reply_of (value % 4096) (not (eqb extended_telemetry 0)))) }
{
    kuzhenga::reply::kuzhenga_reply_from_value(value, extended_telemetry, out)
}

// The reading of a capture, in three slots. Only the mask's low sixteen bits count.
#[unsafe(no_mangle)]
pub extern "C" fn kuzhenga_decode_sampled_reply(
    samples: &[u16],
    pin_mask: u32,
    extended_telemetry: u32,
    out: &mut [u16],
) -> u32
    ensures value { result ≡ refusal_number (asked 3 out.old (sampled_reply 3 samples.now (pin_mask % 65536) (not (eqb extended_telemetry 0)))) }
    ensures out_after { out.new ≡ filled reading_slots out.old (asked 3 out.old (sampled_reply 3 samples.now (pin_mask % 65536) (not (eqb extended_telemetry 0)))) }
{
    kuzhenga::reply::kuzhenga_decode_sampled_reply(samples, pin_mask, extended_telemetry, out)
}

// The value that the simulated ESC sends for a period, in one slot.
#[unsafe(no_mangle)]
pub extern "C" fn kuzhenga_period_value(period_us: u32, value: &mut [u16]) -> u32
    ensures value { result ≡ refusal_number (asked 1 value.old (period_value period_us)) }
    ensures value_after { value.new ≡ filled one value.old (asked 1 value.old (period_value period_us)) }
{
    kuzhenga::reply::kuzhenga_period_value(period_us, value)
}

// The period that `value` modulo 4096 stands for, and its step, in two slots.
#[unsafe(no_mangle)]
pub extern "C" fn kuzhenga_value_period(value: u32, period: &mut [u16]) -> u32
    ensures value { result ≡ refusal_number (asked 2 period.old (value_period (value % 4096))) }
    ensures period_after { period.new ≡ filled period_slots period.old (asked 2 period.old (value_period (value % 4096))) }
{
    kuzhenga::reply::kuzhenga_value_period(value, period)
}

// The capture that the simulated ESC's reply of `value` modulo 4096 leaves in a buffer. Only the mask's low sixteen bits count.
#[unsafe(no_mangle)]
pub extern "C" fn kuzhenga_simulate_reply(
    samples: &mut [u16],
    value: u32,
    lead: usize,
    pin_mask: u32,
) -> u32
    ensures value { result ≡ refusal_number (simulated 3 samples.old (value % 4096) lead (pin_mask % 65536)) }
    ensures samples_after { samples.new ≡ filled (λ l. l) samples.old (simulated 3 samples.old (value % 4096) lead (pin_mask % 65536)) }
{
    kuzhenga::reply::kuzhenga_simulate_reply(samples, value, lead, pin_mask)
}
