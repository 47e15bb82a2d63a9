// Makes the call of one line, and prints what it gave.

use crate::numbers::Numbers;
use crate::slots::Buffers;
use crate::{calls, fields, numbers, orders, put, slots};
use dshot_bank::DshotBank;
use std::io;
use std::io::Write;

// Answers the bank after the call, if the line can be read. If not, nothing is printed.
pub(crate) fn run(
    out: &mut impl Write,
    line: &[u8],
    numbers: &mut Numbers,
    bank: DshotBank,
    buffers: &mut Buffers,
) -> io::Result<Option<DshotBank>> {
    if numbers::read_line(line, numbers).is_none() {
        return Ok(None);
    }
    let [code, given @ ..] = numbers.as_slice() else {
        return Ok(None);
    };
    // A new bank starts with buffers of zeros. They are set before the copy is taken, so its line shows no changed slot.
    if *code == 0 {
        *buffers = slots::zeros();
    }
    let before = *buffers;
    let Some(outcome) = calls::make(*code, given, bank, buffers) else {
        return Ok(None);
    };
    write!(out, "{code}")?;
    put::numbers(out, outcome.answer.as_slice())?;
    put::bar(out)?;
    orders::put_orders(out, outcome.orders, outcome.first_duties)?;
    put::bar(out)?;
    fields::put_fields(out, outcome.bank)?;
    put::bar(out)?;
    slots::put_changed(out, &before, buffers)?;
    writeln!(out)?;
    Ok(Some(outcome.bank))
}
