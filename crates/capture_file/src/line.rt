// Added: the line that the bench prints for one capture. Word, value and reading are those of the crate `dshot_reply`.

ghost use Rattle.std.specs.Prelude.{◌≡◌, [], ◌<◌};
ghost use Rattle.dshot_reply_spec.specs.Answer.{given, refused};
ghost use Rattle.dshot_reply_spec.specs.Kind.{kind_number};
ghost use Rattle.dshot_reply.specs.Answers.{reading};
ghost use Rattle.capture_file.specs.Line.{digit, hexadecimal, decimal, kind_text, listed_of, line_of, padded};
ghost use Rattle.capture_file.specs.Steps.{pushed, written, listed_so, listed_answer};

use dshot_reply::kind::reading_number;
use dshot_reply::refusals::Refusal;
use dshot_reply::{DshotReply, DshotReplyError, decode_gcr, reply_transitions};

// Room for a line: no line has more than 29 bytes.
pub const LINE_ROOM: usize = 32;

// The bytes of a line, zeros after them, and the number of its bytes. C gets all 32 bytes. With an `ArrayVec`, or with `write!`, the archive would need
// memcpy, and it needs memset alone.
#[derive(Clone, Copy, Debug, PartialEq, Eq)]
pub struct Line {
    pub bytes: [u8; LINE_ROOM],
    pub length: usize,
}

impl Line {
    fn new() -> Line
        ensures { result ≡ padded [] }
    {
        Line {
            bytes: [0; LINE_ROOM],
            length: 0,
        }
    }

    // A full line stays as it is.
    #[tactic(auto, unfolding(crate::specs::Steps::pushed))]
    fn push(&mut self, byte: u8)
        ensures { self.new ≡ pushed self.old byte }
    {
        if self.length < LINE_ROOM {
            self.bytes[self.length] = byte;
            self.length += 1;
        }
    }

    fn push_text(&mut self, text: &[u8])
        ensures { self.new ≡ written self.old text.now }
    {
        for byte in text {
            self.push(*byte);
        }
    }

    // The lowest digits of a number, with leading zeros.
    #[tactic(auto, using(crate::proofs::LineLaws::digit_cases))]
    fn push_hexadecimal(&mut self, number: u32, digits: u32)
        ensures { self.new ≡ written self.old (hexadecimal digits number) }
    {
        if 0 < digits {
            self.push_hexadecimal(number / 16, digits - 1);
            self.push(digit_byte(number % 16));
        }
    }

    // All digits of a number, with no leading zero.
    #[tactic(auto, using(crate::proofs::LineLaws::digit_cases))]
    fn push_decimal(&mut self, number: u32)
        ensures { self.new ≡ written self.old (decimal number) }
    {
        if 9 < number {
            self.push_decimal(number / 10);
        }
        self.push(digit_byte(number % 10));
    }
}

// A digit of base ten or sixteen.
#[tactic(auto, unfolding(crate::specs::Line::digit))]
fn digit_byte(value: u32) -> u8
    requires { value < 16 }
    ensures { result ≡ digit value }
{
    b"0123456789abcdef"[value as usize]
}

// The word of a reply's kind. The library reads the debug channels 1 to 3, and no other channel has a word.
#[tactic(auto, using(crate::proofs::LineLaws::kind_words), unfolding(dshot_reply_spec::specs::Kind::debug_kind))]
fn kind_text(reply: DshotReply) -> &'static [u8]
    ensures { result.now ≡ kind_text (kind_number (reading reply)) }
{
    match reply {
        DshotReply::Erpm { .. } => b"erpm",
        DshotReply::Temperature { .. } => b"temp",
        DshotReply::Voltage { .. } => b"volt",
        DshotReply::Current { .. } => b"amp",
        DshotReply::Debug { channel: 1, .. } => b"debug1",
        DshotReply::Debug { channel: 2, .. } => b"debug2",
        DshotReply::Debug { channel: 3, .. } => b"debug3",
        DshotReply::Debug { .. } => b"",
        DshotReply::StateEvent { .. } => b"state",
        DshotReply::ExtendedTelemetryEnabled => b"edt",
    }
}

// What the line says of a capture that can be read.
#[derive(Clone, Copy)]
struct Listed {
    word: u32,
    value: u16,
    reply: DshotReply,
}

// Reads a capture layer by layer.
#[tactic(auto, unfolding(crate::specs::Line::listed_of, crate::specs::Line::listed_word, crate::specs::Line::listed_value))]
fn read_listed(
    samples: &[u16],
    pin_mask: u16,
    extended_telemetry: bool,
) -> Result<Listed, DshotReplyError>
    ensures { listed_answer result ≡ listed_of samples.now pin_mask extended_telemetry }
{
    let word = reply_transitions(samples, pin_mask)?;
    let value = decode_gcr(word)?;
    let reply = DshotReply::from_value(value, extended_telemetry)?;
    Ok(Listed { word, value, reply })
}

#[tactic(auto, using(crate::proofs::LineLaws::listed_fields))]
fn listed_line(listed: Listed) -> Line
    ensures { result ≡ padded (line_of (given (listed_so listed))) }
{
    let mut line = Line::new();
    line.push_hexadecimal(listed.word, 6);
    line.push(b' ');
    line.push_hexadecimal(u32::from(listed.value), 3);
    line.push(b' ');
    line.push_text(kind_text(listed.reply));
    line.push(b' ');
    line.push_decimal(reading_number(listed.reply));
    line.push(b'\n');
    line
}

// The line of a refusal, by its number in document 01.
#[tactic(auto, using(crate::proofs::LineLaws::refused_fields))]
pub fn refused_line(number: u32) -> Line
    ensures { result ≡ padded (line_of (refused number)) }
{
    let mut line = Line::new();
    line.push_text(b"refused ");
    line.push_decimal(number);
    line.push(b'\n');
    line
}

// The line of a capture.
pub fn line_of(samples: &[u16], pin_mask: u16, extended_telemetry: bool) -> Line
    ensures { result ≡ padded (line_of (listed_of samples.now pin_mask extended_telemetry)) }
{
    match read_listed(samples, pin_mask, extended_telemetry) {
        Ok(listed) => listed_line(listed),
        Err(error) => refused_line(Refusal::from(error).number()),
    }
}
