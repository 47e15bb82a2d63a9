// Added: the exported calls on capture files and the bench's line. They wrap those of the crate `capture_file`.
//
// The samples of a file take 4096 slots, a file 12294 bytes, and a line 32 bytes. If a host lends more than 4096 samples to be written, the call
// refuses with 13 (wrong length).

ghost use Rattle.std.specs.Prelude.{◌≡◌, not, ◌%◌, eqb};
ghost use Rattle.dshot_reply_spec.specs.Answer.{given, refusal_number, filled};
ghost use Rattle.dshot_reply.specs.Refusals.{status_number};
ghost use Rattle.capture_file.specs.File.{capture, front, slots_of, read_into, written_into};
ghost use Rattle.capture_file.specs.Listing.{file_line};
ghost use Rattle.kuzhenga.specs.Slots.{asked};
ghost use Rattle.kuzhenga.specs.CaptureSlots.{capture_slots, count_slot, line_bytes};

use crate::slots::low;
use capture_file::file::{read_capture, write_capture};
use capture_file::line::{LINE_ROOM, Line};
use capture_file::list::file_line;
use dshot_reply::refusals::{Refusal, status_number};

#[tactic(auto, unfolding(crate::specs::Slots::asked), using(capture_file::proofs::ListLaws::count_fits))]
fn read(file: &[u8], samples: &mut [u16], about: &mut [u16]) -> Result<(), Refusal>
    ensures value { status_number result ≡ refusal_number (asked 3 about.old (read_into file.now samples.old)) }
    ensures samples_after { samples.new
        ≡ filled (slots_of samples.old) samples.old
        (asked 3 about.old (read_into file.now samples.old)) }
    ensures about_after { about.new
        ≡ filled capture_slots about.old (asked 3 about.old (read_into file.now samples.old)) }
{
    let about = about.as_mut_array::<3>().ok_or(Refusal::WrongLength)?;
    let capture = read_capture(file, samples)?;
    let edt = u16::from(capture.extended_telemetry);
    *about = [capture.count as u16, capture.mask, edt];
    Ok(())
}

// Reads a file. Its samples fill the first slots. Three more slots take the number of samples, the mask and EDT (0 or 1).
#[unsafe(no_mangle)]
pub extern "C" fn kuzhenga_read_capture(file: &[u8], samples: &mut [u16], about: &mut [u16]) -> u32
    ensures value { result ≡ refusal_number (asked 3 about.old (read_into file.now samples.old)) }
    ensures samples_after { samples.new
        ≡ filled (slots_of samples.old) samples.old
        (asked 3 about.old (read_into file.now samples.old)) }
    ensures about_after { about.new
        ≡ filled capture_slots about.old (asked 3 about.old (read_into file.now samples.old)) }
{
    status_number(read(file, samples, about))
}

#[tactic(auto, unfolding(crate::specs::Slots::asked), using(crate::proofs::Cases::written_cases))]
fn write(
    samples: &[u16],
    mask: u16,
    extended_telemetry: bool,
    file: &mut [u8],
    file_length: &mut [u16],
) -> Result<(), Refusal>
    ensures value { status_number result
        ≡ refusal_number
        (asked 1 file_length.old
        (written_into (capture mask extended_telemetry samples.now) file.old)) }
    ensures file_after { file.new
        ≡ filled (front file.old) file.old
        (asked 1 file_length.old
        (written_into (capture mask extended_telemetry samples.now) file.old)) }
    ensures file_length_after { file_length.new
        ≡ filled count_slot file_length.old
        (asked 1 file_length.old
        (written_into (capture mask extended_telemetry samples.now) file.old)) }
{
    let file_length = file_length.as_mut_array::<1>().ok_or(Refusal::WrongLength)?;
    let bytes = write_capture(samples, mask, extended_telemetry, file)?;
    *file_length = [bytes as u16];
    Ok(())
}

// Writes the file of a capture at the front of a buffer, and its length into one slot. Only the mask's low sixteen bits count.
#[unsafe(no_mangle)]
pub extern "C" fn kuzhenga_write_capture(
    samples: &[u16],
    pin_mask: u32,
    extended_telemetry: u32,
    file: &mut [u8],
    file_length: &mut [u16],
) -> u32
    ensures value { result
        ≡ refusal_number
        (asked 1 file_length.old
        (written_into (capture (pin_mask % 65536) (not (eqb extended_telemetry 0)) samples.now) file.old)) }
    ensures file_after { file.new
        ≡ filled (front file.old) file.old
        (asked 1 file_length.old
        (written_into (capture (pin_mask % 65536) (not (eqb extended_telemetry 0)) samples.now) file.old)) }
    ensures file_length_after { file_length.new
        ≡ filled count_slot file_length.old
        (asked 1 file_length.old
        (written_into (capture (pin_mask % 65536) (not (eqb extended_telemetry 0)) samples.now) file.old)) }
{
    let mask = low(pin_mask);
    status_number(write(samples, mask, extended_telemetry != 0, file, file_length))
}

fn list(file: &[u8], line: &mut [u8], line_length: &mut [u16]) -> Result<(), Refusal>
    ensures value { status_number result
        ≡ refusal_number (asked 32 line.old (asked 1 line_length.old (given (file_line file.now)))) }
    ensures line_after { line.new
        ≡ filled line_bytes line.old
        (asked 32 line.old (asked 1 line_length.old (given (file_line file.now)))) }
    ensures line_length_after { line_length.new
        ≡ filled count_slot line_length.old
        (asked 32 line.old (asked 1 line_length.old (given (file_line file.now)))) }
{
    let line = line
        .as_mut_array::<LINE_ROOM>()
        .ok_or(Refusal::WrongLength)?;
    let line_length = line_length.as_mut_array::<1>().ok_or(Refusal::WrongLength)?;
    let Line { bytes, length } = file_line(file);
    *line = bytes;
    *line_length = [length as u16];
    Ok(())
}

// The line of a file with zeros after it, and its length in one slot. If a file holds no capture, its line is `refused 17`, and the call is done.
#[unsafe(no_mangle)]
pub extern "C" fn kuzhenga_list_capture(
    file: &[u8],
    line: &mut [u8],
    line_length: &mut [u16],
) -> u32
    ensures value { result
        ≡ refusal_number (asked 32 line.old (asked 1 line_length.old (given (file_line file.now)))) }
    ensures line_after { line.new
        ≡ filled line_bytes line.old
        (asked 32 line.old (asked 1 line_length.old (given (file_line file.now)))) }
    ensures line_length_after { line_length.new
        ≡ filled count_slot line_length.old
        (asked 32 line.old (asked 1 line_length.old (given (file_line file.now)))) }
{
    status_number(list(file, line, line_length))
}
