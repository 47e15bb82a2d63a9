// The calls of crates/kuzhenga/src/packet.rt.

ghost use Rattle.std.specs.Prelude.{◌≡◌, not, eqb};
ghost use Rattle.dshot_reply_spec.specs.Answer.{given, refusal_number, filled};
ghost use Rattle.dshot_spec.specs.Packet.{plain, inverted, packet_word, try_packet, lane, motor_packets};
ghost use Rattle.kuzhenga.specs.Slots.{asked, one};

// The plain packet of `value` modulo 2048.
#[unsafe(no_mangle)]
pub extern "C" fn kuzhenga_packet_from_value(value: u32, telemetry: u32) -> u32
    ensures { result ≡ packet_word plain value (not (eqb telemetry 0)) }
{
    kuzhenga::packet::kuzhenga_packet_from_value(value, telemetry)
}

// The packet of `value` modulo 2048 for a bidirectional-DShot ESC.
#[unsafe(no_mangle)]
pub extern "C" fn kuzhenga_packet_from_value_bidirectional(value: u32, telemetry: u32) -> u32
    ensures { result ≡ packet_word inverted value (not (eqb telemetry 0)) }
{
    kuzhenga::packet::kuzhenga_packet_from_value_bidirectional(value, telemetry)
}

// The plain packet of a value up to 2047, in one slot.
#[unsafe(no_mangle)]
pub extern "C" fn kuzhenga_packet_try_from_value(
    value: u32,
    telemetry: u32,
    packet: &mut [u16],
) -> u32
    ensures value { result ≡ refusal_number (asked 1 packet.old (try_packet value (not (eqb telemetry 0)))) }
    ensures packet_after { packet.new ≡ filled one packet.old (asked 1 packet.old (try_packet value (not (eqb telemetry 0)))) }
{
    kuzhenga::packet::kuzhenga_packet_try_from_value(value, telemetry, packet)
}

// The plain packets of four motors. If the telemetry lane is above 3, no packet has the telemetry bit.
#[unsafe(no_mangle)]
pub extern "C" fn kuzhenga_four_motor_packets(
    values: &[u16],
    telemetry_lane: usize,
    packets: &mut [u16],
) -> u32
    ensures value { result ≡ refusal_number (asked 4 values.now (asked 4 packets.old (given (motor_packets 4 plain values.now (lane telemetry_lane))))) }
    ensures packets_after { packets.new ≡ filled (λ l. l) packets.old (asked 4 values.now (asked 4 packets.old (given (motor_packets 4 plain values.now (lane telemetry_lane))))) }
{
    kuzhenga::packet::kuzhenga_four_motor_packets(values, telemetry_lane, packets)
}

// The same for bidirectional-DShot ESCs.
#[unsafe(no_mangle)]
pub extern "C" fn kuzhenga_four_motor_bidirectional_packets(
    values: &[u16],
    telemetry_lane: usize,
    packets: &mut [u16],
) -> u32
    ensures value { result ≡ refusal_number (asked 4 values.now (asked 4 packets.old (given (motor_packets 4 inverted values.now (lane telemetry_lane))))) }
    ensures packets_after { packets.new ≡ filled (λ l. l) packets.old (asked 4 values.now (asked 4 packets.old (given (motor_packets 4 inverted values.now (lane telemetry_lane))))) }
{
    kuzhenga::packet::kuzhenga_four_motor_bidirectional_packets(values, telemetry_lane, packets)
}
