// Added: the exported calls on a bank whose state the host keeps in slots. They wrap those of the crate `bank_slots`.
//
// A bank takes 97 slots. Only the library decides what they hold.

ghost use Rattle.std.specs.Prelude.{◌≡◌, true, false, not, eqb, if◌then◌else◌};
ghost use Rattle.dshot_reply_spec.specs.Refusals.{wrong_length};
ghost use Rattle.dshot_spec.specs.Packet.{flag};
ghost use Rattle.dshot_bank_spec.specs.State.{Buffers};
ghost use Rattle.dshot_bank_spec.specs.Commands.{from_lanes, fallback_release_due};
ghost use Rattle.dshot_bank_spec.specs.Calls as Call;
ghost use Rattle.bank_slots_spec.specs.Memory.{at};
ghost use Rattle.bank_slots_spec.specs.Load.{timing_at};
ghost use Rattle.bank_slots_spec.specs.Store.{store};
ghost use Rattle.bank_slots_spec.specs.Called.{Called, fit, sized, state_at, answer_of, buffers_after, number};
ghost use Rattle.bank_slots_spec.specs.Outs.{out_after};
ghost use Rattle.bank_slots_spec.specs.Arguments.{taken, present, masks, run_given};

use bank_slots::{commands, interrupt, looks, service};
use dshot_bank::interrupt::DmaAnswers;
use dshot_reply::refusals::status_number;

// Makes a new bank with a timing in four slots. The first lent buffer is current, and the second is spare.
#[unsafe(no_mangle)]
pub extern "C" fn kuzhenga_bank_from_lanes(timing: &[u16], bank: &mut [u16]) -> u32
    ensures value { result ≡ (if fit bank.old (sized 4 timing.now) then 0 else wrong_length) }
    ensures bank_after { bank.new ≡ (if fit bank.old (sized 4 timing.now) then store (from_lanes 4 (timing_at (at timing.now))) else bank.old) }
{
    status_number(commands::from_lanes(timing, bank))
}

// Switches to bidirectional DShot. It is meant for the time before the first frame, but a later call is not refused.
#[unsafe(no_mangle)]
pub extern "C" fn kuzhenga_bank_enable_bidirectional(bank: &mut [u16], receives_replies: u32) -> u32
    ensures value { (b : Buffers) → result ≡ number (answer_of (fit bank.old true) (state_at bank.old b) (Call.enable_bidirectional_call (not (eqb receives_replies 0)))) }
    ensures called { (b : Buffers) → Called (fit bank.old true) (Call.enable_bidirectional_call (not (eqb receives_replies 0))) b bank.old bank.new result }
{
    status_number(commands::enable_bidirectional(bank, receives_replies != 0))
}

// Sets the four requested values to 0 and ends the lease.
#[unsafe(no_mangle)]
pub extern "C" fn kuzhenga_bank_command_stop(bank: &mut [u16]) -> u32
    ensures value { (b : Buffers) → result ≡ number (answer_of (fit bank.old true) (state_at bank.old b) (Call.command_stop_call)) }
    ensures called { (b : Buffers) → Called (fit bank.old true) (Call.command_stop_call) b bank.old bank.new result }
{
    status_number(commands::command_stop(bank))
}

// Requests the throttles of the four motors, each up to 2000, for a lease.
#[unsafe(no_mangle)]
pub extern "C" fn kuzhenga_bank_command_throttles(
    bank: &mut [u16],
    throttles: &[u16],
    now_ms: u64,
    lease_ms: u32,
) -> u32
    ensures value { (b : Buffers) → result ≡ number (answer_of (fit bank.old (sized 4 throttles.now)) (state_at bank.old b) (Call.command_throttles_call throttles.now now_ms lease_ms)) }
    ensures called { (b : Buffers) → Called (fit bank.old (sized 4 throttles.now)) (Call.command_throttles_call throttles.now now_ms lease_ms) b bank.old bank.new result }
{
    status_number(commands::command_throttles(bank, throttles, now_ms, lease_ms))
}

// Queues a run of special-command frames for one motor. The run takes four slots.
#[unsafe(no_mangle)]
pub extern "C" fn kuzhenga_bank_command_special(bank: &mut [u16], motor: usize, run: &[u16]) -> u32
    ensures value { (b : Buffers) → result ≡ number (answer_of (fit bank.old (sized 4 run.now)) (state_at bank.old b) (Call.command_special_call motor (run_given run.now))) }
    ensures called { (b : Buffers) → Called (fit bank.old (sized 4 run.now)) (Call.command_special_call motor (run_given run.now)) b bank.old bank.new result }
{
    status_number(commands::command_special(bank, motor, run))
}

// Requests telemetry from one motor in the next frame without a special command.
#[unsafe(no_mangle)]
pub extern "C" fn kuzhenga_bank_request_telemetry(bank: &mut [u16], motor: usize) -> u32
    ensures value { (b : Buffers) → result ≡ number (answer_of (fit bank.old true) (state_at bank.old b) (Call.request_telemetry_call motor)) }
    ensures called { (b : Buffers) → Called (fit bank.old true) (Call.request_telemetry_call motor) b bank.old bank.new result }
{
    status_number(commands::request_telemetry(bank, motor))
}

// Withdraws a telemetry request that no frame has carried yet.
#[unsafe(no_mangle)]
pub extern "C" fn kuzhenga_bank_cancel_telemetry_request(bank: &mut [u16]) -> u32
    ensures value { (b : Buffers) → result ≡ number (answer_of (fit bank.old true) (state_at bank.old b) (Call.cancel_telemetry_request_call)) }
    ensures called { (b : Buffers) → Called (fit bank.old true) (Call.cancel_telemetry_request_call) b bank.old bank.new result }
{
    status_number(commands::cancel_telemetry_request(bank))
}

// Takes the lane whose telemetry request the last service sent. Two slots take 1 and the lane. If there is none, they take 0 and 0.
#[unsafe(no_mangle)]
pub extern "C" fn kuzhenga_bank_take_telemetry_request_sent(
    bank: &mut [u16],
    out: &mut [u16],
) -> u32
    ensures called { (b : Buffers) → Called (fit bank.old (sized 2 out.old)) (Call.take_telemetry_request_sent) b bank.old bank.new result }
    ensures out_after { (b : Buffers) → out.new ≡ out_after (answer_of (fit bank.old (sized 2 out.old)) (state_at bank.old b) (Call.take_telemetry_request_sent)) out.old }
{
    status_number(commands::take_telemetry_request_sent(bank, out))
}

// Ends an expired lease, times out a frame in flight, reads the replies that wait, and sends the next frame set. `lanes` has twelve slots: for each
// lane whether it took its buffer, then whether it has a capture, then the mask of its capture. The answer takes fifteen slots: the event, the number
// of orders, the orders, and the first duties.
#[unsafe(no_mangle)]
pub extern "C" fn kuzhenga_bank_service(
    bank: &mut [u16],
    now_ms: u64,
    lanes: &[u16],
    first: &mut [u16],
    second: &mut [u16],
    captures: &[u16],
    out: &mut [u16],
) -> u32
    ensures called { Called (fit bank.old (if sized 12 lanes.now then sized 15 out.old else false)) (Call.service_call now_ms (taken lanes.now) (present lanes.now) (masks lanes.now) captures.now) (record { first = first.entry.now; second = second.old }) bank.old bank.new result }
    ensures fact { ◌≡◌ {A = Buffers} (record { first = first.exit.now; second = second.new }) (buffers_after (fit bank.old (if sized 12 lanes.now then sized 15 out.old else false)) (state_at bank.old (record { first = first.entry.now; second = second.old })) (Call.service_call now_ms (taken lanes.now) (present lanes.now) (masks lanes.now) captures.now)) }
    ensures out_after { out.new ≡ out_after (answer_of (fit bank.old (if sized 12 lanes.now then sized 15 out.old else false)) (state_at bank.old (record { first = first.entry.now; second = second.old })) (Call.service_call now_ms (taken lanes.now) (present lanes.now) (masks lanes.now) captures.now)) out.old }
{
    status_number(service::service(bank, now_ms, lanes, first, second, captures, out))
}

// A lane's DMA interrupt. `turned` says whether every lane turned to receive, and `turned_back` whether every lane turned back. Each counts only if
// the Rust would ask for it. The answer takes nine slots: the event, the number of orders, and the orders.
#[unsafe(no_mangle)]
pub extern "C" fn kuzhenga_bank_on_dma_interrupt(
    bank: &mut [u16],
    motor: usize,
    transfer_complete: u32,
    dma_error: u32,
    turned: u32,
    turned_back: u32,
    out: &mut [u16],
) -> u32
    ensures called { (b : Buffers) → Called (fit bank.old (sized 9 out.old)) (Call.on_dma_interrupt_call motor (not (eqb transfer_complete 0)) (not (eqb dma_error 0)) (not (eqb turned 0)) (not (eqb turned_back 0))) b bank.old bank.new result }
    ensures out_after { (b : Buffers) → out.new ≡ out_after (answer_of (fit bank.old (sized 9 out.old)) (state_at bank.old b) (Call.on_dma_interrupt_call motor (not (eqb transfer_complete 0)) (not (eqb dma_error 0)) (not (eqb turned 0)) (not (eqb turned_back 0)))) out.old }
{
    let answers = DmaAnswers {
        transfer_complete: transfer_complete != 0,
        dma_error: dma_error != 0,
        turned: turned != 0,
        turned_back: turned_back != 0,
    };
    status_number(interrupt::on_dma_interrupt(bank, motor, answers, out))
}

// The replies decoded since the last call, once: 1 and four slots a lane. If none are held, slot 0 is 0 and each lane has 7 (no reply).
#[unsafe(no_mangle)]
pub extern "C" fn kuzhenga_bank_take_replies(bank: &mut [u16], out: &mut [u16]) -> u32
    ensures called { (b : Buffers) → Called (fit bank.old (sized 17 out.old)) (Call.take_replies) b bank.old bank.new result }
    ensures out_after { (b : Buffers) → out.new ≡ out_after (answer_of (fit bank.old (sized 17 out.old)) (state_at bank.old b) (Call.take_replies)) out.old }
{
    status_number(looks::take_replies(bank, out))
}

// 1 if the bank is bidirectional, else 0.
#[unsafe(no_mangle)]
pub extern "C" fn kuzhenga_bank_is_bidirectional(bank: &[u16], out: &mut [u16]) -> u32
    ensures value { (b : Buffers) → result ≡ number (answer_of (fit bank.now (sized 1 out.old)) (state_at bank.now b) (Call.is_bidirectional)) }
    ensures out_after { (b : Buffers) → out.new ≡ out_after (answer_of (fit bank.now (sized 1 out.old)) (state_at bank.now b) (Call.is_bidirectional)) out.old }
{
    status_number(looks::is_bidirectional(bank, out))
}

// 1 if the bank has latched a fault, else 0.
#[unsafe(no_mangle)]
pub extern "C" fn kuzhenga_bank_is_faulted(bank: &[u16], out: &mut [u16]) -> u32
    ensures value { (b : Buffers) → result ≡ number (answer_of (fit bank.now (sized 1 out.old)) (state_at bank.now b) (Call.is_faulted)) }
    ensures out_after { (b : Buffers) → out.new ≡ out_after (answer_of (fit bank.now (sized 1 out.old)) (state_at bank.now b) (Call.is_faulted)) out.old }
{
    status_number(looks::is_faulted(bank, out))
}

// 1 while a special-command run is still being sent, else 0.
#[unsafe(no_mangle)]
pub extern "C" fn kuzhenga_bank_command_pending(bank: &[u16], out: &mut [u16]) -> u32
    ensures value { (b : Buffers) → result ≡ number (answer_of (fit bank.now (sized 1 out.old)) (state_at bank.now b) (Call.command_pending_call)) }
    ensures out_after { (b : Buffers) → out.new ≡ out_after (answer_of (fit bank.now (sized 1 out.old)) (state_at bank.now b) (Call.command_pending_call)) out.old }
{
    status_number(looks::command_pending(bank, out))
}

// The DShot values that are requested of the four motors.
#[unsafe(no_mangle)]
pub extern "C" fn kuzhenga_bank_requested_values(bank: &[u16], out: &mut [u16]) -> u32
    ensures value { (b : Buffers) → result ≡ number (answer_of (fit bank.now (sized 4 out.old)) (state_at bank.now b) (Call.requested_values_call)) }
    ensures out_after { (b : Buffers) → out.new ≡ out_after (answer_of (fit bank.now (sized 4 out.old)) (state_at bank.now b) (Call.requested_values_call)) out.old }
{
    status_number(looks::requested_values(bank, out))
}

// Eleven counts of 32 bits, in the order of DshotStats.
#[unsafe(no_mangle)]
pub extern "C" fn kuzhenga_bank_stats(bank: &[u16], out: &mut [u16]) -> u32
    ensures value { (b : Buffers) → result ≡ number (answer_of (fit bank.now (sized 22 out.old)) (state_at bank.now b) (Call.stats)) }
    ensures out_after { (b : Buffers) → out.new ≡ out_after (answer_of (fit bank.now (sized 22 out.old)) (state_at bank.now b) (Call.stats)) out.old }
{
    status_number(looks::stats(bank, out))
}

// Twelve counts of 32 bits, three for each lane, in the order of DshotReplyStats.
#[unsafe(no_mangle)]
pub extern "C" fn kuzhenga_bank_reply_stats(bank: &[u16], out: &mut [u16]) -> u32
    ensures value { (b : Buffers) → result ≡ number (answer_of (fit bank.now (sized 24 out.old)) (state_at bank.now b) (Call.reply_stats)) }
    ensures out_after { (b : Buffers) → out.new ≡ out_after (answer_of (fit bank.now (sized 24 out.old)) (state_at bank.now b) (Call.reply_stats)) out.old }
{
    status_number(looks::reply_stats(bank, out))
}

// The sixteen slots of the sequence that a lane is sending, from the buffer that holds it.
#[unsafe(no_mangle)]
pub extern "C" fn kuzhenga_bank_sending(
    bank: &[u16],
    first: &[u16],
    second: &[u16],
    motor: usize,
    out: &mut [u16],
) -> u32
    ensures value { result ≡ number (answer_of (fit bank.now (sized 16 out.old)) (state_at bank.now (record { first = first.entry.now; second = second.now })) (Call.sending motor)) }
    ensures out_after { out.new ≡ out_after (answer_of (fit bank.now (sized 16 out.old)) (state_at bank.now (record { first = first.entry.now; second = second.now })) (Call.sending motor)) out.old }
{
    status_number(looks::sending(bank, first, second, motor, out))
}

// 1 if no frame set was released for two milliseconds, else 0. The clock has 32 bits and may wrap.
#[unsafe(no_mangle)]
pub extern "C" fn kuzhenga_fallback_release_due(now_ms: u32, last_release_ms: u32) -> u32
    ensures { result ≡ flag (fallback_release_due now_ms last_release_ms) }
{
    u32::from(dshot_bank::fallback_release_due(now_ms, last_release_ms))
}
