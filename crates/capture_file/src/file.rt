// Added: reads a capture file into slots for its samples, and writes one into a buffer.

ghost use Rattle.std.specs.Prelude.{◌≡◌, true, ◌+◌, ◌≤◌, length};
ghost use Rattle.dshot_reply.specs.Refusals.{refusal_number};
ghost use Rattle.dshot_reply_spec.specs.Answer.{given, and_then, is_given, filled};
ghost use Rattle.capture_file.specs.Groups.{read_all};
ghost use Rattle.capture_file.specs.File.{all_groups, capture, read_head, front, slots_of, read_into, written_into, told, byte_count};
ghost use Rattle.capture_file.specs.FileAnswers.{capture_error_number, read_answer, written_answer};
ghost use Rattle.capture_file.specs.FileSteps.{put, head_answer};

use crate::number::{put_number, read_number};
use dshot_reply::refusals::Refusal;

// The most samples that a file holds.
pub const FILE_SAMPLES: usize = 4096;

// The bytes of the longest file: two for the count, three for the mask, one for EDT, and three for each sample.
pub const FILE_BYTES: usize = 12294;

// What a file holds besides its samples.
#[derive(Clone, Copy, Debug, PartialEq, Eq)]
pub struct Capture {
    pub count: usize,
    pub mask: u16,
    pub extended_telemetry: bool,
}

// Why a file was not read or written.
#[derive(Clone, Copy, Debug, PartialEq, Eq)]
pub enum CaptureError {
    NotACapture,
    // A slice has the wrong length.
    WrongLength,
}

impl From<CaptureError> for Refusal {
    ghost from_gives = { λ e r. refusal_number r ≡ capture_error_number e };

    fn from(error: CaptureError) -> Refusal {
        match error {
            CaptureError::NotACapture => Refusal::NotACapture,
            CaptureError::WrongLength => Refusal::WrongLength,
        }
    }
}

// Reads the three numbers before the samples, and the bytes after them.
#[tactic(auto, unfolding(crate::specs::File::read_head))]
fn read_head(file: &[u8]) -> Option<(Capture, &[u8])>
    ensures { head_answer result ≡ read_head file.now }
{
    let (count, rest) = read_number(file)?;
    let (mask, rest) = read_number(rest)?;
    let (edt, rest) = read_number(rest)?;
    let count = usize::from(count);
    if FILE_SAMPLES < count || 1 < edt {
        return None;
    }
    let capture = Capture {
        count,
        mask,
        extended_telemetry: edt == 1,
    };
    Some((capture, rest))
}

// Whether bytes are `count` numbers, with nothing after them.
#[tactic(auto, using(crate::proofs::SampleLaws::are_samples_cases))]
fn are_samples(bytes: &[u8], count: usize) -> bool
    ensures { result ≡ is_given (read_all count bytes.now) }
{
    let mut rest = bytes;
    for _ in 0..count {
        let Some((_, after)) = read_number(rest) else {
            return false;
        };
        rest = after;
    }
    rest.is_empty()
}

// Fills slots with the numbers that bytes are. All of them are known to be there.
#[tactic(auto, using(crate::proofs::SampleLaws::fill_cases))]
fn fill_samples(bytes: &[u8], samples: &mut [u16])
    requires { is_given (read_all (length samples.old) bytes.now) ≡ true }
    ensures { read_all (length samples.old) bytes.now ≡ given samples.new }
{
    let mut rest = bytes;
    for slot in samples {
        let (value, after) = read_number(rest).unwrap();
        *slot = value;
        rest = after;
    }
}

// Reads a file. Its samples go into the first of `FILE_SAMPLES` slots, and the other slots stay as they were. The whole file is read before the first
// slot is filled. So if the call refuses, all slots stay as they were.
#[tactic(auto, using(crate::proofs::CallLaws::read_cases), unfolding(crate::specs::File::read_into, crate::specs::File::read_file))]
pub fn read_capture(file: &[u8], samples: &mut [u16]) -> Result<Capture, CaptureError>
    ensures result_value { read_answer result ≡ and_then (read_into file.now samples.old) told }
    ensures samples_after { samples.new
        ≡ filled (slots_of samples.old) samples.old (read_into file.now samples.old) }
{
    if samples.len() != FILE_SAMPLES {
        return Err(CaptureError::WrongLength);
    }
    let (capture, rest) = read_head(file).ok_or(CaptureError::NotACapture)?;
    if !are_samples(rest, capture.count) {
        return Err(CaptureError::NotACapture);
    }
    fill_samples(rest, &mut samples[..capture.count]);
    Ok(capture)
}

// Writes numbers from a place on, and returns the place after them.
#[tactic(auto, using(crate::proofs::WriteLaws::ahead_cases))]
fn put_numbers(file: &mut [u8], from: usize, numbers: &[u16]) -> usize
    requires { from + length (all_groups numbers.now) ≤ length file.old }
    ensures value { result ≡ from + length (all_groups numbers.now) }
    ensures file_after { file.new ≡ put from (all_groups numbers.now) file.old }
{
    let mut at = from;
    for number in numbers {
        at = put_number(file, at, *number);
    }
    at
}

// Writes the file of a capture at the front of a buffer of `FILE_BYTES` bytes, and returns the file's length. The rest of the buffer stays as it was.
#[tactic(auto, using(crate::proofs::CallLaws::write_cases), unfolding(crate::specs::File::written_into))]
pub fn write_capture(
    samples: &[u16],
    pin_mask: u16,
    extended_telemetry: bool,
    file: &mut [u8],
) -> Result<usize, CaptureError>
    ensures result_value { written_answer result
        ≡ and_then (written_into (capture pin_mask extended_telemetry samples.now) file.old) byte_count }
    ensures file_after { file.new
        ≡ filled (front file.old) file.old
        (written_into (capture pin_mask extended_telemetry samples.now) file.old) }
{
    if FILE_SAMPLES < samples.len() || file.len() != FILE_BYTES {
        return Err(CaptureError::WrongLength);
    }
    let head = [
        samples.len() as u16,
        pin_mask,
        u16::from(extended_telemetry),
    ];
    let at = put_numbers(file, 0, &head);
    Ok(put_numbers(file, at, samples))
}
