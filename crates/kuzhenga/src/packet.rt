// Added: the exported calls on packets. They wrap those of the crate `dshot`.

ghost use Rattle.std.specs.Prelude.{◌≡◌, not, eqb};
ghost use Rattle.dshot_reply_spec.specs.Answer.{given, refusal_number, filled};
ghost use Rattle.dshot_spec.specs.Packet.{plain, inverted, packet_word, try_packet, lane, motor_packets};
ghost use Rattle.dshot_reply.specs.Refusals.{status_number};
ghost use Rattle.dshot.specs.Answers.{kind_of};
ghost use Rattle.kuzhenga.specs.Slots.{asked, one};

use crate::slots::{Slots, put};
use dshot::{ChecksumKind, DshotPacket, MotorValues};
use dshot_reply::refusals::{Refusal, status_number};

// The plain packet of `value` modulo 2048.
#[tactic(auto, unfolding(dshot_spec::specs::Packet::packet_word))]
#[unsafe(no_mangle)]
pub extern "C" fn kuzhenga_packet_from_value(value: u32, telemetry: u32) -> u32
    ensures { result ≡ packet_word plain value (not (eqb telemetry 0)) }
{
    let packet = DshotPacket::from_value((value % 2048) as u16, telemetry != 0);
    u32::from(packet.0)
}

// The packet of `value` modulo 2048 for a bidirectional-DShot ESC.
#[tactic(auto, unfolding(dshot_spec::specs::Packet::packet_word))]
#[unsafe(no_mangle)]
pub extern "C" fn kuzhenga_packet_from_value_bidirectional(value: u32, telemetry: u32) -> u32
    ensures { result ≡ packet_word inverted value (not (eqb telemetry 0)) }
{
    let packet = DshotPacket::from_value_bidirectional((value % 2048) as u16, telemetry != 0);
    u32::from(packet.0)
}

impl Slots<1> for DshotPacket {
    ghost slots = { λ packet. one packet.0 };

    fn fill(&self, out: &mut [u16; 1]) {
        *out = [self.0];
    }
}

// The plain packet of a value up to 2047, in one slot.
#[tactic(auto, unfolding(dshot_spec::specs::Packet::try_packet, crate::specs::Slots::asked))]
#[unsafe(no_mangle)]
pub extern "C" fn kuzhenga_packet_try_from_value(
    value: u32,
    telemetry: u32,
    packet: &mut [u16],
) -> u32
    ensures value { result ≡ refusal_number (asked 1 packet.old (try_packet value (not (eqb telemetry 0)))) }
    ensures packet_after { packet.new ≡ filled one packet.old (asked 1 packet.old (try_packet value (not (eqb telemetry 0)))) }
{
    // A number of more than sixteen bits is refused like the largest one that has no more.
    let make = || DshotPacket::try_from_value(value.min(65535) as u16, telemetry != 0);
    status_number(put(packet, make))
}

// Makes one packet at a time, and does not call `packets_of_kind`. That function is inlined in the bank's sending, as long as nothing else calls it. It
// saves 4 to 5 ns in a cycle.
#[tactic(auto, unfolding(dshot_spec::specs::Packet::motor_packets), using(crate::proofs::Cases::filled_cases))]
fn fill_packets(
    kind: ChecksumKind,
    values: &MotorValues,
    telemetry_lane: usize,
    packets: &mut [u16; 4],
)
    ensures { packets.new ≡ motor_packets 4 (kind_of kind) values.now (lane telemetry_lane) }
{
    for (index, packet) in packets.iter_mut().enumerate() {
        *packet = DshotPacket::of_kind(kind, values[index], telemetry_lane == index).0;
    }
}

#[inline(always)]
fn put_packets(
    kind: ChecksumKind,
    values: &[u16],
    telemetry_lane: usize,
    packets: &mut [u16],
) -> Result<(), Refusal>
    ensures value { status_number result ≡ refusal_number (asked 4 values.now (asked 4 packets.old (given (motor_packets 4 (kind_of kind) values.now (lane telemetry_lane))))) }
    ensures packets_after { packets.new ≡ filled (λ l. l) packets.old (asked 4 values.now (asked 4 packets.old (given (motor_packets 4 (kind_of kind) values.now (lane telemetry_lane))))) }
{
    let values = values.as_array::<4>().ok_or(Refusal::WrongLength)?;
    let packets = packets.as_mut_array::<4>().ok_or(Refusal::WrongLength)?;
    fill_packets(kind, values, telemetry_lane, packets);
    Ok(())
}

// The plain packets of four motors. If the telemetry lane is above 3, no packet has the telemetry bit.
#[unsafe(no_mangle)]
pub extern "C" fn kuzhenga_four_motor_packets(
    values: &[u16],
    telemetry_lane: usize,
    packets: &mut [u16],
) -> u32
    ensures value { result ≡ refusal_number (asked 4 values.now (asked 4 packets.old (given (motor_packets 4 plain values.now (lane telemetry_lane))))) }
    ensures packets_after { packets.new ≡ filled (λ l. l) packets.old (asked 4 values.now (asked 4 packets.old (given (motor_packets 4 plain values.now (lane telemetry_lane))))) }
{
    status_number(put_packets(ChecksumKind::Plain, values, telemetry_lane, packets))
}

// The same for bidirectional-DShot ESCs.
#[unsafe(no_mangle)]
pub extern "C" fn kuzhenga_four_motor_bidirectional_packets(
    values: &[u16],
    telemetry_lane: usize,
    packets: &mut [u16],
) -> u32
    ensures value { result ≡ refusal_number (asked 4 values.now (asked 4 packets.old (given (motor_packets 4 inverted values.now (lane telemetry_lane))))) }
    ensures packets_after { packets.new ≡ filled (λ l. l) packets.old (asked 4 values.now (asked 4 packets.old (given (motor_packets 4 inverted values.now (lane telemetry_lane))))) }
{
    status_number(put_packets(ChecksumKind::Inverted, values, telemetry_lane, packets))
}
