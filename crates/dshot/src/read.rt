// Added: the readers of packets and of sequences. They are not in the source.

ghost use Rattle.std.specs.Prelude.{◌≡◌, ◌∷◌};
ghost use Rattle.dshot_spec.specs.Packet.{read_packet};
ghost use Rattle.dshot_spec.specs.Sequence.{duty_bit, word_from, read_sequence};
ghost use Rattle.dshot_reply.specs.Refusals.{refusal_number};
ghost use Rattle.dshot.specs.Answers.{read_error_number, frame_answer, timing_of};
ghost use Rattle.dshot.specs.Steps.{duty_answer};

use crate::{ChecksumKind, DSHOT_BITS, DshotPacket, DshotTiming, checksum_of};
use dshot_reply::refusals::Refusal;

// Why a packet or a sequence cannot be read.
#[derive(Clone, Copy, Debug, PartialEq, Eq)]
pub enum FrameReadError {
    // The sequence does not have sixteen slots.
    WrongLength,
    // A duty is neither high time, the last slot is not zero, or both bits have the same high time.
    WrongDuty,
    // The checksum is neither plain nor inverted.
    Checksum,
}

impl From<FrameReadError> for Refusal {
    ghost from_gives = { λ e r. refusal_number r ≡ read_error_number e };

    fn from(error: FrameReadError) -> Refusal {
        match error {
            FrameReadError::WrongLength => Refusal::WrongLength,
            FrameReadError::WrongDuty => Refusal::WrongDuty,
            FrameReadError::Checksum => Refusal::WrongPacketChecksum,
        }
    }
}

// What a packet or a sequence says.
#[derive(Clone, Copy, Debug, PartialEq, Eq)]
pub struct Frame {
    pub value: u16,
    pub telemetry: bool,
    pub checksum: ChecksumKind,
}

// The value, the telemetry bit and the kind of checksum of a packet.
#[tactic(auto, unfolding(dshot_spec::specs::Packet::read_packet))]
pub fn read_packet(packet: DshotPacket) -> Result<Frame, FrameReadError>
    ensures { frame_answer result ≡ read_packet packet.0 }
{
    let payload = packet.0 / 16;
    let sent = packet.0 % 16;
    let expected = checksum_of(payload);
    let checksum = if sent == expected {
        ChecksumKind::Plain
    } else if sent == expected ^ 0x0f {
        ChecksumKind::Inverted
    } else {
        return Err(FrameReadError::Checksum);
    };
    Ok(Frame {
        value: payload / 2,
        telemetry: payload % 2 == 1,
        checksum,
    })
}

impl DshotTiming {
    // The bit that a duty stands for. It is `None` if the duty is neither high time.
    fn bit_of(self, duty: u16) -> Option<u16>
        ensures { duty_answer result ≡ duty_bit (timing_of self) duty }
    {
        if duty == self.one_high {
            return Some(1);
        }
        if duty == self.zero_high {
            return Some(0);
        }
        None
    }
}

// The word of sixteen duties, or `None` if one of them stands for no bit. The first duty is not in the slots.
fn read_word(first: u16, slots: &[u16; DSHOT_BITS - 1], timing: DshotTiming) -> Option<u16>
    ensures { duty_answer result ≡ word_from (timing_of timing) 0 (first ∷ slots.now) }
{
    let mut word = timing.bit_of(first)?;
    for duty in slots {
        word = word * 2 + timing.bit_of(*duty)?;
    }
    Some(word)
}

// The value, the telemetry bit and the kind of checksum of a sequence that `encode_compare_sequence` wrote. The first duty is not in the slots.
#[tactic(auto, unfolding(dshot_spec::specs::Sequence::read_sequence))]
pub fn read_compare_sequence(
    first: u16,
    dma_output: &[u16],
    timing: DshotTiming,
) -> Result<Frame, FrameReadError>
    ensures { frame_answer result ≡ read_sequence (timing_of timing) (record { first = first; slots = dma_output.now }) }
{
    let Some((duties, [last])) = dma_output.split_first_chunk() else {
        return Err(FrameReadError::WrongLength);
    };
    if timing.zero_high == timing.one_high {
        return Err(FrameReadError::WrongDuty);
    }
    if *last != 0 {
        return Err(FrameReadError::WrongDuty);
    }
    let word = read_word(first, duties, timing).ok_or(FrameReadError::WrongDuty)?;
    read_packet(DshotPacket(word))
}
