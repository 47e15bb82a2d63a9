// The numbers of an answer.

ghost use Rattle.std.specs.Prelude.{◌≡◌, ◌≤◌, length};
ghost use Rattle.arrayvec.specs.ArrayVec.{array_vec_len};

use arrayvec::ArrayVec;
use case_text::answers::Answer;
use dshot_bank::DshotMotor;
use dshot_reply::refusals::Refusal;

// The most numbers of an answer: those of a view.
const MOST: usize = 17;

pub type Part = ArrayVec<u64, MOST>;

pub(crate) fn of(numbers: &[u64]) -> Part
    requires { length numbers.now ≤ 17 }
    ensures { array_vec_len result ≡ length numbers.now }
{
    let mut part = Part::new();
    part.try_extend_from_slice(numbers).unwrap();
    part
}

// The number of a refusal and 0, or 0 and the number of an event.
pub(crate) fn of_event<E: Into<Refusal>>(event: Result<u64, E>) -> [u64; 2] {
    let answer = Answer::from(event.map(|number| [number]));
    [answer.refusal, answer.numbers[0]]
}

// 0 if there is none, else the lane + 1.
pub(crate) fn of_motor(motor: Option<DshotMotor>) -> u64 {
    motor.map_or(0, |motor| motor as u64 + 1)
}
