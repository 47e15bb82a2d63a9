// Added: a reply as two numbers, the number of its kind and the number that it carries. The bench's line and the calls from C need them.

ghost use Rattle.std.specs.Prelude.{◌≡◌};
ghost use Rattle.dshot_reply_spec.specs.Kind.{debug_kind, kind_number, reading_number};
ghost use Rattle.dshot_reply.specs.Answers.{reading};

use crate::DshotReply;

// The library reads the channels 1 to 3. Any other channel gets a number that is no kind.
#[tactic(auto, unfolding(dshot_reply_spec::specs::Kind::debug_kind))]
fn debug_kind(channel: u8) -> u16
    ensures { result ≡ debug_kind channel }
{
    match channel {
        1 => 4,
        2 => 5,
        3 => 6,
        _ => 9,
    }
}

// The number of a reply's kind.
pub fn kind_number(reply: DshotReply) -> u16
    ensures { result ≡ kind_number (reading reply) }
{
    match reply {
        DshotReply::Erpm { erpm_div100: _ } => 0,
        DshotReply::Temperature { celsius: _ } => 1,
        DshotReply::Voltage { quarter_volts: _ } => 2,
        DshotReply::Current { amps: _ } => 3,
        DshotReply::Debug { channel, value: _ } => debug_kind(channel),
        DshotReply::StateEvent { value: _ } => 7,
        DshotReply::ExtendedTelemetryEnabled => 8,
    }
}

// The number that a reply carries.
pub fn reading_number(reply: DshotReply) -> u32
    ensures { result ≡ reading_number (reading reply) }
{
    match reply {
        DshotReply::Erpm { erpm_div100 } => erpm_div100,
        DshotReply::Temperature { celsius } => u32::from(celsius),
        DshotReply::Voltage { quarter_volts } => u32::from(quarter_volts),
        DshotReply::Current { amps } => u32::from(amps),
        DshotReply::Debug { channel: _, value } => u32::from(value),
        DshotReply::StateEvent { value } => u32::from(value),
        DshotReply::ExtendedTelemetryEnabled => 0,
    }
}
