// Added: the exported calls on timing, duties and sequences. They wrap those of the crate `dshot`.
//
// A timing takes four slots: arr, zero_high, one_high and reply_sample_arr.

ghost use Rattle.std.specs.Prelude.{◌≡◌, not, ◌%◌, eqb};
ghost use Rattle.dshot_reply_spec.specs.Answer.{given, refusal_number, filled};
ghost use Rattle.dshot_spec.specs.Timing.{from_clocks, duty_for_bit};
ghost use Rattle.dshot_spec.specs.Sequence.{encoded_packet, encoded_sequence};
ghost use Rattle.dshot_reply_spec.specs.Refusals.{wrong_length};
ghost use Rattle.dshot_reply.specs.Answers.{answer};
ghost use Rattle.dshot_reply.specs.Refusals.{status_number};
ghost use Rattle.dshot.specs.Answers.{timing_of};
ghost use Rattle.kuzhenga.specs.Slots.{asked, one};
ghost use Rattle.kuzhenga.specs.FrameSlots.{timing_slots, timing_at};

use crate::slots::{Slots, low, put, timing_at};
use dshot::{DshotPacket, DshotTiming};
use dshot_reply::refusals::{Refusal, WrongLength, status_number};

impl Slots<4> for DshotTiming {
    ghost slots = { λ timing. timing_slots (timing_of timing) };

    fn fill(&self, out: &mut [u16; 4]) {
        *out = [
            self.arr,
            self.zero_high,
            self.one_high,
            self.reply_sample_arr,
        ];
    }
}

// The timing of a timer clock and a bit rate, in four slots.
#[unsafe(no_mangle)]
pub extern "C" fn kuzhenga_timing_from_clocks(
    timer_hz: u32,
    bitrate_hz: u32,
    timing: &mut [u16],
) -> u32
    ensures value { result ≡ refusal_number (asked 4 timing.old (from_clocks 3 timer_hz bitrate_hz)) }
    ensures timing_after { timing.new ≡ filled timing_slots timing.old (asked 4 timing.old (from_clocks 3 timer_hz bitrate_hz)) }
{
    status_number(put(timing, || DshotTiming::from_clocks(timer_hz, bitrate_hz)))
}

fn duty_for_bit(timing: &[u16], set: bool) -> Result<u16, WrongLength>
    ensures { answer (λ duty. duty) (λ _. wrong_length) result ≡ asked 4 timing.now (given (duty_for_bit (timing_at timing.now) set)) }
{
    let timing = timing.as_array().ok_or(WrongLength)?;
    Ok(timing_at(timing).duty_for_bit(set))
}

// The high time of a bit, in one slot.
#[unsafe(no_mangle)]
pub extern "C" fn kuzhenga_duty_for_bit(timing: &[u16], set: u32, duty: &mut [u16]) -> u32
    ensures value { result ≡ refusal_number (asked 4 timing.now (asked 1 duty.old (given (duty_for_bit (timing_at timing.now) (not (eqb set 0)))))) }
    ensures duty_after { duty.new ≡ filled one duty.old (asked 4 timing.now (asked 1 duty.old (given (duty_for_bit (timing_at timing.now) (not (eqb set 0)))))) }
{
    status_number(put(duty, || duty_for_bit(timing, set != 0)))
}

// The frame of a packet in 22 slots, at a largest duty. Only the low sixteen bits of both numbers count.
#[unsafe(no_mangle)]
pub extern "C" fn kuzhenga_encode_packet(packet: u32, max_duty: u32, output: &mut [u16]) -> u32
    ensures value { result ≡ refusal_number (encoded_packet output.old (packet % 65536) (max_duty % 65536)) }
    ensures output_after { output.new ≡ filled (λ l. l) output.old (encoded_packet output.old (packet % 65536) (max_duty % 65536)) }
{
    let written = dshot::encode_packet(DshotPacket(low(packet)), low(max_duty), output);
    status_number(written.map_err(Refusal::from))
}

fn encode(
    packet: u32,
    timing: &[u16],
    first: &mut [u16],
    dma_output: &mut [u16],
) -> Result<(), Refusal>
    ensures value { status_number result ≡ refusal_number (asked 4 timing.now (asked 1 first.old (encoded_sequence dma_output.old (packet % 65536) (timing_at timing.now)))) }
    ensures first_after { first.new ≡ filled (λ s. one s.first) first.old (asked 4 timing.now (asked 1 first.old (encoded_sequence dma_output.old (packet % 65536) (timing_at timing.now)))) }
    ensures dma_output_after { dma_output.new ≡ filled (λ s. s.slots) dma_output.old (asked 4 timing.now (asked 1 first.old (encoded_sequence dma_output.old (packet % 65536) (timing_at timing.now)))) }
{
    let timing = timing.as_array().ok_or(Refusal::WrongLength)?;
    let first = first.as_mut_array::<1>().ok_or(Refusal::WrongLength)?;
    let word = DshotPacket(low(packet));
    *first = [dshot::encode_compare_sequence(word, timing_at(timing), dma_output)?];
    Ok(())
}

// The sequence of a packet: the first duty in one slot, the others in sixteen. Only the packet's low sixteen bits count.
#[unsafe(no_mangle)]
pub extern "C" fn kuzhenga_encode_compare_sequence(
    packet: u32,
    timing: &[u16],
    first: &mut [u16],
    dma_output: &mut [u16],
) -> u32
    ensures value { result ≡ refusal_number (asked 4 timing.now (asked 1 first.old (encoded_sequence dma_output.old (packet % 65536) (timing_at timing.now)))) }
    ensures first_after { first.new ≡ filled (λ s. one s.first) first.old (asked 4 timing.now (asked 1 first.old (encoded_sequence dma_output.old (packet % 65536) (timing_at timing.now)))) }
    ensures dma_output_after { dma_output.new ≡ filled (λ s. s.slots) dma_output.old (asked 4 timing.now (asked 1 first.old (encoded_sequence dma_output.old (packet % 65536) (timing_at timing.now)))) }
{
    status_number(encode(packet, timing, first, dma_output))
}
