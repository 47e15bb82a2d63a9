// Prints the orders of a call.

use crate::put;
use dshot::MotorValues;
use dshot_bank::orders::{OrderKind, Orders};
use std::io;
use std::io::Write;

// The first duties follow the order that starts the frame.
pub(crate) fn put_orders(
    out: &mut impl Write,
    orders: Orders,
    duties: MotorValues,
) -> io::Result<()> {
    if orders.count == 0 {
        return put::empty(out);
    }
    for order in orders {
        put::numbers(out, &[order.kind.number(), u64::from(order.motor)])?;
        if order.kind == OrderKind::StartFrame {
            put::numbers(out, &duties.map(u64::from))?;
        }
    }
    Ok(())
}
