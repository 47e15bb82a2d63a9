// Added: the period that a value stands for, and its step, for the bench.

ghost use Rattle.std.specs.Prelude.{◌≡◌};
ghost use Rattle.dshot_reply_spec.specs.ValuePeriod.{value_period};
ghost use Rattle.dshot_reply.specs.Answers.{value_period_answer};

use crate::{DshotReplyError, ERPM_STOPPED};

// The period of a value and the step to the next one, both 0 at rest.
#[derive(Clone, Copy, Debug, PartialEq, Eq)]
pub struct ValuePeriod {
    pub period_us: u16,
    pub step_us: u16,
}

// The period of a value that is a speed. Only the low twelve bits of the value count.
#[tactic(auto, using(crate::proofs::WordLaws::shl_cases), unfolding(dshot_reply_spec::specs::ValuePeriod::value_period))]
pub fn value_period(value: u16) -> Result<ValuePeriod, DshotReplyError>
    ensures { value_period_answer result ≡ value_period value }
{
    let v = value % 4096;
    if v == ERPM_STOPPED {
        return Ok(ValuePeriod {
            period_us: 0,
            step_us: 0,
        });
    }
    let exponent = v / 512;
    let period_us = (v % 512) << exponent;
    if period_us == 0 {
        return Err(DshotReplyError::ZeroPeriod);
    }
    Ok(ValuePeriod {
        period_us,
        step_us: 1 << exponent,
    })
}
