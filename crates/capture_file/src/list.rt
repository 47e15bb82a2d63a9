// Added: the line of a capture file.

ghost use Rattle.std.specs.Prelude.{◌≡◌};
ghost use Rattle.capture_file.specs.Line.{padded};
ghost use Rattle.capture_file.specs.Listing.{file_line};

use crate::file::{FILE_SAMPLES, read_capture};
use crate::line::{Line, line_of, refused_line};
use dshot_reply::refusals::Refusal;

// The line that is printed for a file's bytes. It is that of the capture in the file. If there is none, it is `refused 17`.
#[tactic(auto, using(crate::proofs::ListLaws::file_line_cases))]
pub fn file_line(file: &[u8]) -> Line
    ensures { result ≡ padded (file_line file.now) }
{
    let mut samples = [0u16; FILE_SAMPLES];
    match read_capture(file, &mut samples) {
        Ok(capture) => line_of(
            &samples[..capture.count],
            capture.mask,
            capture.extended_telemetry,
        ),
        Err(error) => refused_line(Refusal::from(error).number()),
    }
}
