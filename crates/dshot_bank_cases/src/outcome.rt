// What a call gives.

ghost use Rattle.std.specs.Prelude.{◌≤◌, length};

use crate::part;
use crate::part::Part;
use dshot::MotorValues;
use dshot_bank::DshotBank;
use dshot_bank::orders::Orders;

// The answer, the orders with the first duties, and the bank after the call.
#[derive(Drop)]
pub struct Outcome {
    pub answer: Part,
    pub orders: Orders,
    pub first_duties: MotorValues,
    pub bank: DshotBank,
}

// The outcome of a call that gives no orders.
pub(crate) fn answered(answer: &[u64], bank: DshotBank) -> Outcome
    requires { length answer.now ≤ 17 }
{
    Outcome {
        answer: part::of(answer),
        orders: Orders { count: 0, codes: 0 },
        first_duties: [0; 4],
        bank,
    }
}
