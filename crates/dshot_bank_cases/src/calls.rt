// Makes the call of a line, by its code. Codes 0 to 7 are in demands.rt, 8 in services.rt, 9 in interrupts.rt. Codes 10 to 17 and 21 are in looks.rt,
// and 18 to 20 in sets.rt.
//
// A line is unreadable if its code is none of these, or if it has too few or too many numbers. It is also unreadable if the call cannot take one of
// its numbers. Such a number is too large for its type, is a flag above 1, or is a length above that of the buffers here. Then there is no outcome.

use crate::outcome::Outcome;
use crate::slots::Buffers;
use crate::{demands, interrupts, looks, services, sets};
use dshot_bank::DshotBank;

pub(crate) fn make(
    code: u64,
    given: &[u64],
    bank: DshotBank,
    buffers: &mut Buffers,
) -> Option<Outcome> {
    match (code, given) {
        (0, _) => demands::from_lanes(given),
        (1, _) => demands::enable_bidirectional(given, bank),
        (2, []) => Some(demands::command_stop(bank)),
        (3, _) => demands::command_throttles(given, bank),
        (4, _) => demands::command_special(given, bank),
        (5, _) => demands::request_telemetry(given, bank),
        (6, []) => Some(demands::cancel_telemetry_request(bank)),
        (7, []) => Some(demands::take_telemetry_request_sent(bank)),
        (8, _) => services::service(given, bank, buffers),
        (9, _) => interrupts::on_dma_interrupt(given, bank),
        (10, []) => Some(looks::take_replies(bank)),
        (11, []) => Some(looks::is_bidirectional(bank)),
        (12, []) => Some(looks::is_faulted(bank)),
        (13, []) => Some(looks::stats(bank)),
        (14, []) => Some(looks::requested_values(bank)),
        (15, []) => Some(looks::command_pending(bank)),
        (16, []) => Some(looks::reply_stats(bank)),
        (17, _) => looks::view(given, bank, buffers),
        (18, _) => sets::slot(given, bank, buffers),
        (19, _) => sets::stats(given, bank),
        (20, _) => sets::reply_stats(given, bank),
        (21, _) => looks::release_due(given, bank),
        _ => None,
    }
}
