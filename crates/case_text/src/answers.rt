// What a call answers, in the numbers that a list stores.

ghost use Rattle.std.specs.Prelude.{◌≡◌, [], ◌∷◌, replicate, MatchResult};
ghost use Rattle.dshot_reply.specs.declared.refusals.Refusal.{Refusal};
ghost use Rattle.dshot_reply_spec.specs.Answer as Told;
ghost use Rattle.dshot_reply_spec.specs.Kind.{kind_number, reading_number};
ghost use Rattle.dshot_reply.specs.Answers.{reply_answer};
ghost use Rattle.dshot_reply.specs.Refusals.{refusal_number};
ghost use Rattle.case_text.specs.Answers.{of_given};

use dshot_reply::refusals::Refusal;
use dshot_reply::{DshotReply, DshotReplyError, kind};

// The number of a refusal, and zeros. If the call is done: 0, and its numbers.
#[derive(Clone, Copy, Debug, PartialEq, Eq)]
pub struct Answer<const N: usize> {
    pub refusal: u64,
    pub numbers: [u64; N],
}

// The number of the refusal that an error is.
fn number_of<E: Into<Refusal>>(error: E) -> u64
    ensures { (r : Refusal) × E.converts error r × (result ≡ refusal_number r) }
{
    let refusal: Refusal = error.into();
    u64::from(refusal.number())
}

impl<const N: usize, E: Into<Refusal>> From<Result<[u64; N], E>> for Answer<N> {
    ghost from_gives = { λ given told. MatchResult given
        (λ ns. (told.refusal ≡ 0) × (told.numbers ≡ ns))
        (λ e. ((r : Refusal) × E.converts e r × (told.refusal ≡ refusal_number r)) × (told.numbers ≡ replicate N 0)) };

    fn from(given: Result<[u64; N], E>) -> Self {
        match given {
            Ok(numbers) => Answer {
                refusal: 0,
                numbers,
            },
            Err(error) => Answer {
                refusal: number_of(error),
                numbers: [0; N],
            },
        }
    }
}

// The number of a refusal, or 0 if the call is done.
pub fn status<E: Into<Refusal>>(done: Result<(), E>) -> u64
    ensures { MatchResult done (λ _. result ≡ 0) (λ e. (r : Refusal) × E.converts e r × (result ≡ refusal_number r)) }
{
    match done {
        Ok(()) => 0,
        Err(error) => number_of(error),
    }
}

// The kind of a reply, and its number.
pub fn of_read(read: Result<DshotReply, DshotReplyError>) -> Answer<2>
    ensures refusal { result.refusal ≡ Told.refusal_number (reply_answer read) }
    ensures numbers { result.numbers ≡ of_given kind_number (reply_answer read) ∷ of_given reading_number (reply_answer read) ∷ [] }
{
    match read {
        Ok(reply) => {
            let kind = u64::from(kind::kind_number(reply));
            Answer {
                refusal: 0,
                numbers: [kind, u64::from(kind::reading_number(reply))],
            }
        }
        Err(error) => Answer::from(Err(error)),
    }
}
