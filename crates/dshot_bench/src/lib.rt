// Only for bench/: the packets of four motors and their sequences, built by the library's own code. So the benchmark measures that code, and not five
// calls from C.
#![tactic(auto)]

ghost use Rattle.std.specs.Prelude.{◌≡◌, ◌++◌, ◌+◌, ◌*◌, ◌<◌, length, take, drop, set};
ghost use Rattle.dshot_reply_spec.specs.Answer.{refusal_number, filled};
ghost use Rattle.dshot_spec.specs.Packet.{lane};
ghost use Rattle.dshot_spec.specs.Sequence.{sequence_of};
ghost use Rattle.dshot.specs.Answers.{timing_of};
ghost use Rattle.dshot_bench.specs.Sequences.{timing_of_counts, built, firsts_of, slots_of};

use dshot::{DshotPacket, DshotTiming};
use dshot_reply::refusals::Refusal;

// Puts the sequence of a packet into its lane's part of the slots, and its first duty beside it.
#[tactic(auto, unfolding(dshot_spec::specs::Sequence::encoded_sequence))]
fn put_sequence(
    packet: DshotPacket,
    timing: DshotTiming,
    lane: usize,
    slots: &mut [u16],
    firsts: &mut [u16],
)
    requires { (lane < 4) × (length slots.old ≡ 64) × (length firsts.old ≡ 4) }
    ensures slots_after { slots.new ≡ take (16 * lane) slots.old ++ ((sequence_of (timing_of timing) packet.0).slots ++ drop 16 (drop (16 * lane) slots.old)) }
    ensures firsts_after { firsts.new ≡ set firsts.old lane (sequence_of (timing_of timing) packet.0).first }
{
    let from = 16 * lane;
    let end = from + 16;
    if let Ok(first) = dshot::encode_compare_sequence(packet, timing, &mut slots[from..end]) {
        firsts[lane] = first;
    }
}

// The sequences of four values with inverted checksums, sixteen slots each, and their first duties.
#[tactic(auto, unfolding(crate::specs::Sequences::built))]
#[unsafe(no_mangle)]
pub extern "C" fn bench_four_sequences(
    values: &[u16],
    telemetry_lane: usize,
    arr: u16,
    zero_high: u16,
    one_high: u16,
    reply_sample_arr: u16,
    slots: &mut [u16],
    firsts: &mut [u16],
) -> u32
    ensures value { result ≡ refusal_number (built values.now (lane telemetry_lane) slots.old firsts.old) }
    ensures slots_after { slots.new ≡ filled (slots_of (timing_of_counts arr zero_high one_high reply_sample_arr)) slots.old (built values.now (lane telemetry_lane) slots.old firsts.old) }
    ensures firsts_after { firsts.new ≡ filled (firsts_of (timing_of_counts arr zero_high one_high reply_sample_arr)) firsts.old (built values.now (lane telemetry_lane) slots.old firsts.old) }
{
    if values.len() != 4 || slots.len() != 64 || firsts.len() != 4 {
        return Refusal::WrongLength.number();
    }
    let timing = DshotTiming {
        arr,
        zero_high,
        one_high,
        reply_sample_arr,
    };
    let packets = dshot::four_motor_bidirectional_packets(
        [values[0], values[1], values[2], values[3]],
        Some(telemetry_lane),
    );
    for (lane, packet) in packets.iter().enumerate() {
        put_sequence(*packet, timing, lane, slots, firsts);
    }
    0
}
