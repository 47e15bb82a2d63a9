// Added: all refusals, with document 01's numbers: 1 to 17 because of the input, 18 to 22 because of a bank's state; and document 02's, 24 to 26 for
// dumps.

ghost use Rattle.std.specs.Prelude.{◌≡◌};
ghost use Rattle.dshot_reply_spec.specs.Refusals.{wrong_length};
ghost use Rattle.dshot_reply.specs.Answers.{error_number};
ghost use Rattle.dshot_reply.specs.Refusals.{refusal_number, status_number};

use crate::DshotReplyError;

#[derive(Clone, Copy, Debug, PartialEq, Eq)]
pub enum Refusal {
    ZeroTimerClock = 1,
    ZeroBitrate = 2,
    PeriodTooShort = 3,
    PeriodTooLong = 4,
    ValueOutOfRange = 5,
    ThrottleOutOfRange = 6,
    NoReply = 7,
    Overlong = 8,
    InvalidSymbol = 9,
    WrongChecksum = 10,
    ZeroPeriod = 11,
    // The lane does not exist: its number is too large. Or a capture is to be made with mask 0, which is no motor's pin.
    NoSuchMotor = 12,
    WrongLength = 13,
    WrongDuty = 14,
    WrongPacketChecksum = 15,
    PeriodOutOfRange = 16,
    NotACapture = 17,
    // ---- because of a bank's state
    BankFaulted = 18,
    MotorsRunning = 19,
    CommandPending = 20,
    TelemetryPending = 21,
    RepliesUnsupported = 22,
    // ---- dumps
    // The text breaks the syntax, an argument is out of its range, or a sample has no level.
    BrokenDump = 24,
    // The name is declared never or more than once.
    NotDeclaredOnce = 25,
    // A time is smaller than the one before it.
    TimeFalls = 26,
}

impl Refusal {
    // The number of a refusal in documents 01 and 02.
    pub fn number(self) -> u32
        ensures { result ≡ refusal_number self }
    {
        self as u32
    }
}

// The number of a refusal, or 0 if the call is done.
pub fn status_number(status: Result<(), Refusal>) -> u32
    ensures { result ≡ status_number status }
{
    match status {
        Ok(()) => 0,
        Err(refusal) => refusal.number(),
    }
}

impl From<DshotReplyError> for Refusal {
    ghost from_gives = { λ e r. refusal_number r ≡ error_number e };

    fn from(error: DshotReplyError) -> Refusal {
        match error {
            DshotReplyError::NoReply => Refusal::NoReply,
            DshotReplyError::Overlong => Refusal::Overlong,
            DshotReplyError::InvalidSymbol => Refusal::InvalidSymbol,
            DshotReplyError::Checksum => Refusal::WrongChecksum,
            DshotReplyError::ZeroPeriod => Refusal::ZeroPeriod,
        }
    }
}

// A slice that was lent has the wrong length. It is the only error of the calls that answer with it.
#[derive(Clone, Copy, Debug, PartialEq, Eq)]
pub struct WrongLength;

impl From<WrongLength> for Refusal {
    ghost from_gives = { λ e r. refusal_number r ≡ wrong_length };

    fn from(_error: WrongLength) -> Refusal {
        Refusal::WrongLength
    }
}
