// Added: the exported readers of packets and sequences. They wrap those of the crate `dshot`.
//
// A frame that is read takes three slots: the value, the telemetry bit, and 0 for a plain checksum or 1 for an inverted one.

ghost use Rattle.std.specs.Prelude.{◌≡◌};
ghost use Rattle.dshot_reply_spec.specs.Answer.{refusal_number, filled};
ghost use Rattle.dshot_spec.specs.Sequence.{read_sequence};
ghost use Rattle.dshot.specs.Answers.{frame_told, frame_answer};
ghost use Rattle.kuzhenga.specs.Slots.{asked};
ghost use Rattle.kuzhenga.specs.FrameSlots.{timing_at, frame_slots, read_wide};

use crate::slots::{Slots, put, timing_at};
use dshot::read::{Frame, FrameReadError};
use dshot::{COMPARE_DMA_SLOTS, ChecksumKind, DshotPacket, read};
use dshot_reply::refusals::status_number;

impl Slots<3> for Frame {
    ghost slots = { λ frame. frame_slots (frame_told frame) };

    fn fill(&self, out: &mut [u16; 3]) {
        let inverted = self.checksum == ChecksumKind::Inverted;
        *out = [self.value, u16::from(self.telemetry), u16::from(inverted)];
    }
}

fn read_wide(packet: u32) -> Result<Frame, FrameReadError>
    ensures { frame_answer result ≡ read_wide packet }
{
    let word = u16::try_from(packet).map_err(|_| FrameReadError::Checksum)?;
    read::read_packet(DshotPacket(word))
}

// What a packet says, in three slots. A number above 65535 is no packet.
#[unsafe(no_mangle)]
pub extern "C" fn kuzhenga_read_packet(packet: u32, frame: &mut [u16]) -> u32
    ensures value { result ≡ refusal_number (asked 3 frame.old (read_wide packet)) }
    ensures frame_after { frame.new ≡ filled frame_slots frame.old (asked 3 frame.old (read_wide packet)) }
{
    status_number(put(frame, || read_wide(packet)))
}

// A first duty above 65535 is neither high time.
#[tactic(auto, unfolding(dshot_spec::specs::Sequence::read_sequence, crate::specs::Slots::asked))]
fn read_sequence(first: u32, dma_output: &[u16], timing: &[u16]) -> Result<Frame, FrameReadError>
    ensures { frame_answer result ≡ asked 4 timing.now (read_sequence (timing_at timing.now) (record { first = first; slots = dma_output.now })) }
{
    let timing = timing.as_array().ok_or(FrameReadError::WrongLength)?;
    if dma_output.len() != COMPARE_DMA_SLOTS {
        return Err(FrameReadError::WrongLength);
    }
    let first = u16::try_from(first).map_err(|_| FrameReadError::WrongDuty)?;
    read::read_compare_sequence(first, dma_output, timing_at(timing))
}

// What a sequence says, in three slots. It takes the first duty, the sixteen slots, and the timing that the sequence was made with.
#[unsafe(no_mangle)]
pub extern "C" fn kuzhenga_read_compare_sequence(
    first: u32,
    dma_output: &[u16],
    timing: &[u16],
    frame: &mut [u16],
) -> u32
    ensures value { result ≡ refusal_number (asked 4 timing.now (asked 3 frame.old (read_sequence (timing_at timing.now) (record { first = first; slots = dma_output.now })))) }
    ensures frame_after { frame.new ≡ filled frame_slots frame.old (asked 4 timing.now (asked 3 frame.old (read_sequence (timing_at timing.now) (record { first = first; slots = dma_output.now })))) }
{
    status_number(put(frame, || read_sequence(first, dma_output, timing)))
}
