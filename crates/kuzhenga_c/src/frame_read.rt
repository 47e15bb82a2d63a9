// The calls of crates/kuzhenga/src/frame_read.rt.

ghost use Rattle.std.specs.Prelude.{◌≡◌};
ghost use Rattle.dshot_reply_spec.specs.Answer.{refusal_number, filled};
ghost use Rattle.dshot_spec.specs.Sequence.{read_sequence};
ghost use Rattle.kuzhenga.specs.Slots.{asked};
ghost use Rattle.kuzhenga.specs.FrameSlots.{timing_at, frame_slots, read_wide};

// What a packet says, in three slots. A number above 65535 is no packet.
#[unsafe(no_mangle)]
pub extern "C" fn kuzhenga_read_packet(packet: u32, frame: &mut [u16]) -> u32
    ensures value { result ≡ refusal_number (asked 3 frame.old (read_wide packet)) }
    ensures frame_after { frame.new ≡ filled frame_slots frame.old (asked 3 frame.old (read_wide packet)) }
{
    kuzhenga::frame_read::kuzhenga_read_packet(packet, frame)
}

// What a sequence says, in three slots. It takes the first duty, the sixteen slots, and the timing that the sequence was made with.
#[unsafe(no_mangle)]
pub extern "C" fn kuzhenga_read_compare_sequence(
    first: u32,
    dma_output: &[u16],
    timing: &[u16],
    frame: &mut [u16],
) -> u32
    ensures value { result ≡ refusal_number (asked 4 timing.now (asked 3 frame.old (read_sequence (timing_at timing.now) (record { first = first; slots = dma_output.now })))) }
    ensures frame_after { frame.new ≡ filled frame_slots frame.old (asked 4 timing.now (asked 3 frame.old (read_sequence (timing_at timing.now) (record { first = first; slots = dma_output.now })))) }
{
    kuzhenga::frame_read::kuzhenga_read_compare_sequence(first, dma_output, timing, frame)
}
