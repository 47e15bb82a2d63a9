// Only for bench/: the cycles of a bank in a loop of the library's own. So the benchmark measures the bank, and not its calls from C.
#![tactic(auto)]

ghost use Rattle.std.specs.Prelude.{◌≡◌, ◌*◌, ◌/◌, true, false, not, length, replicate, ◌==◌};
ghost use Rattle.dshot_reply_spec.specs.Answer.{refusal_number, filled};
ghost use Rattle.dshot_spec.specs.Tabulate.{tabulate};
ghost use Rattle.dshot_bank_spec.specs.State.{Buffers};
ghost use Rattle.dshot_bank_spec.specs.Calls.{command_throttles_call, service_call, on_dma_interrupt_call};
ghost use Rattle.dshot_bank.specs.States.{stored_answer, bank_of};
ghost use Rattle.dshot_bank_bench.specs.Cycles.{add_all, numbers_in, after, past, speed, count_at, asked, fit, first_of, second_of, counts_of};
ghost use Rattle.dshot_bank_bench.specs.Runs.{run_of};
ghost use Rattle.dshot_bank_bench.specs.Cycles as Spec;

use dshot::{DshotTiming, MotorValues};
use dshot_bank::interrupt::DmaAnswers;
use dshot_bank::orders::Orders;
use dshot_bank::replies::LaneAnswers;
use dshot_bank::{DshotBank, LANES, SAMPLES, SLOTS, StoredReply};
use dshot_reply::refusals::Refusal;
use std::array;

const LEASE_MS: u32 = 10;

// An interrupt whose transfer is complete. If the lanes are asked to turn, they turn.
const COMPLETE: DmaAnswers = DmaAnswers {
    transfer_complete: true,
    dma_error: false,
    turned: true,
    turned_back: true,
};

// The numbers that are given of a bank.
const COUNTS: usize = 24;

// What stays the same over all cycles. Every capture is present, or none is.
#[derive(Clone, Copy)]
struct Setup {
    present: bool,
    mask: u16,
    interrupts: usize,
}

impl Setup {
    // All buffers are taken.
    fn answers(self) -> LaneAnswers
        ensures { (result.taken ≡ replicate 4 true) × (result.present ≡ replicate 4 self.present) × (result.masks ≡ replicate 4 self.mask) }
    {
        LaneAnswers {
            taken: [true; LANES],
            present: [self.present; LANES],
            masks: [self.mask; LANES],
        }
    }
}

// A bank, and the sum of its orders so far.
#[derive(Clone, Copy)]
struct Run {
    pub bank: DshotBank,
    pub sum: u32,
}

// Looks at each order, and adds its number. A loop over the orders makes each a kind, and takes 109 to 128 instructions a cycle more.
fn add_orders(start: u32, orders: Orders) -> u32
    ensures { result ≡ add_all start (numbers_in orders.count orders.codes) }
{
    let mut codes = orders.codes;
    let mut sum = start;
    for _i in 0..orders.count {
        sum = sum.wrapping_add((codes % 128) as u32);
        codes /= 128;
    }
    sum
}

fn add_duties(sum: u32, duties: MotorValues) -> u32
    ensures { result ≡ add_all sum duties }
{
    duties
        .iter()
        .fold(sum, |sum: u32, duty| sum.wrapping_add(u32::from(*duty)))
}

impl Run {
    // An interrupt of a lane.
    fn interrupt(self, lane: usize) -> Self
        ensures { (b : Buffers) → run_of result b ≡ after (run_of self b) (on_dma_interrupt_call lane true false true true) }
    {
        let done = self.bank.on_dma_interrupt(lane, COMPLETE);
        Run {
            bank: done.bank,
            sum: add_duties(add_orders(self.sum, done.orders), [0; LANES]),
        }
    }

    // Interrupts of one lane after the other.
    #[tactic(auto, using(crate::proofs::CycleLaws::interrupts_more), unfolding(crate::specs::Cycles::interrupts))]
    fn interrupts(self, count: usize) -> Self
        ensures { (b : Buffers) → run_of result b ≡ Spec.interrupts count (run_of self b) }
    {
        let mut run = self;
        for i in 0..count {
            run = run.interrupt(i % LANES);
        }
        run
    }

    // Renews the throttles.
    fn throttle(self, throttles: MotorValues, now_ms: u64) -> Self
        ensures { (b : Buffers) → run_of result b ≡ past (run_of self b) (command_throttles_call throttles now_ms 10) }
    {
        let throttled = self.bank.command_throttles(throttles, now_ms, LEASE_MS);
        Run {
            bank: throttled.bank,
            ..self
        }
    }

    // Sends a frame set.
    fn serve(
        self,
        now_ms: u64,
        answers: LaneAnswers,
        captures: &[u16],
        first: &mut [u16],
        second: &mut [u16],
    ) -> Self
        ensures { ◌≡◌ {A = Spec.Run} (run_of result (record { first = first.exit.now; second = second.new })) (after (run_of self (record { first = first.entry.now; second = second.old })) (service_call now_ms answers.taken answers.present answers.masks captures.now)) }
    {
        let served = self.bank.service(now_ms, answers, first, second, captures);
        Run {
            bank: served.bank,
            sum: add_duties(add_orders(self.sum, served.orders), served.first_duties),
        }
    }

    fn cycle(
        self,
        now_ms: u64,
        throttles: MotorValues,
        setup: Setup,
        captures: &[u16],
        first: &mut [u16],
        second: &mut [u16],
    ) -> Self
        ensures { ◌≡◌ {A = Spec.Run} (run_of result (record { first = first.exit.now; second = second.new })) (Spec.cycle throttles setup.present setup.mask captures.now setup.interrupts now_ms (run_of self (record { first = first.entry.now; second = second.old }))) }
    {
        self.throttle(throttles, now_ms)
            .serve(now_ms, setup.answers(), captures, first, second)
            .interrupts(setup.interrupts)
    }
}

// Makes some cycles, each with its own four throttles and four windows.
#[tactic(auto, using(crate::proofs::CycleLaws::cycles_more), unfolding(crate::specs::Cycles::cycles))]
fn cycles_from(
    start: Run,
    setup: Setup,
    throttles: &[u16],
    captures: &[u16],
    first: &mut [u16],
    second: &mut [u16],
) -> Run
    requires { length throttles.now ≡ 4 * (length captures.now / 640) }
    ensures { ◌≡◌ {A = Spec.Run} (run_of result (record { first = first.exit.now; second = second.new })) (Spec.cycles setup.present setup.mask setup.interrupts throttles.now captures.now (run_of start (record { first = first.entry.now; second = second.old })) (length captures.now / 640)) }
{
    let mut run = start;
    let (fours, _) = throttles.as_chunks::<LANES>();
    let (windows, _) = captures.as_chunks::<SAMPLES>();
    for (n, four) in fours.iter().enumerate() {
        run = run.cycle(n as u64, *four, setup, &windows[n], first, second);
    }
    run
}

// The speed that a reply reads as; 0 if it is no speed.
fn speed_of(reply: StoredReply) -> u32
    ensures { result ≡ speed (stored_answer reply) }
{
    match reply {
        StoredReply::Erpm(erpm_div100) => erpm_div100,
        _ => 0,
    }
}

#[tactic(auto, using(crate::proofs::CycleLaws::reply_at), unfolding(crate::specs::Cycles::count_at))]
fn count_at(run: Run, i: usize) -> u32
    ensures { result ≡ count_at (bank_of run.bank) run.sum i }
{
    let lane = i % LANES;
    let stats = run.bank.core.stats;
    let reply = run.bank.replies[lane];
    let others = [
        stats.frames_started,
        stats.frames_completed,
        stats.dma_faults,
        run.sum,
    ];
    match i / LANES {
        0 => stats.lane_completions[lane],
        1 => reply.valid,
        2 => reply.invalid,
        3 => reply.consecutive_invalid,
        4 => speed_of(reply.reply),
        _ => others[lane],
    }
}

fn counts_of(run: Run) -> [u32; COUNTS]
    ensures { result ≡ tabulate 24 (count_at (bank_of run.bank) run.sum) }
{
    array::from_fn(|i| count_at(run, i))
}

// A new bank with its timing. Nothing is ordered yet.
fn new_run(timing: DshotTiming, bidirectional: bool) -> Run
    ensures { (b : Buffers) → run_of result b ≡ Spec.start timing.arr timing.zero_high timing.one_high timing.reply_sample_arr bidirectional b }
{
    let enabled = DshotBank::from_lanes(timing).enable_bidirectional(bidirectional);
    Run {
        bank: enabled.bank,
        sum: 0,
    }
}

// Whether every slice has its length, for as many cycles as there are captures for.
#[tactic(auto, unfolding(crate::specs::Cycles::fit))]
fn are_whole(
    throttles: &[u16],
    captures: &[u16],
    first: &[u16],
    second: &[u16],
    counts: &[u32],
) -> bool
    ensures { result ≡ fit (length captures.now / 640) (length throttles.now) (length first.now) (length second.now) (length counts.now) }
{
    throttles.len() == LANES * (captures.len() / SAMPLES)
        && first.len() == SLOTS
        && second.len() == SLOTS
        && counts.len() == COUNTS
}

// Makes as many cycles of a new bank as there are captures for. Each cycle has 640 samples and four throttles. The call leaves the two buffers, and
// 24 numbers of the bank. In a flag, 0 means no, and any other number means yes.
#[tactic(auto, unfolding(crate::specs::Cycles::asked, crate::specs::Cycles::fit))]
#[unsafe(no_mangle)]
pub extern "C" fn bench_bank_cycles(
    arr: u16,
    zero_high: u16,
    one_high: u16,
    reply_sample_arr: u16,
    bidirectional: u32,
    present: u32,
    mask: u16,
    interrupts: usize,
    throttles: &[u16],
    captures: &[u16],
    first: &mut [u16],
    second: &mut [u16],
    counts: &mut [u32],
) -> u32
    ensures value { result ≡ refusal_number (asked arr zero_high one_high reply_sample_arr bidirectional present mask interrupts throttles.now captures.now first.old second.old counts.old) }
    ensures first_after { first.new ≡ filled first_of first.old (asked arr zero_high one_high reply_sample_arr bidirectional present mask interrupts throttles.now captures.now first.old second.old counts.old) }
    ensures second_after { second.new ≡ filled second_of second.old (asked arr zero_high one_high reply_sample_arr bidirectional present mask interrupts throttles.now captures.now first.old second.old counts.old) }
    ensures counts_after { counts.new ≡ filled counts_of counts.old (asked arr zero_high one_high reply_sample_arr bidirectional present mask interrupts throttles.now captures.now first.old second.old counts.old) }
{
    if !are_whole(throttles, captures, first, second, counts) {
        return Refusal::WrongLength.number();
    }
    let timing = DshotTiming {
        arr,
        zero_high,
        one_high,
        reply_sample_arr,
    };
    let setup = Setup {
        present: present != 0,
        mask,
        interrupts,
    };
    let start = new_run(timing, bidirectional != 0);
    let run = cycles_from(start, setup, throttles, captures, first, second);
    counts.copy_from_slice(&counts_of(run));
    0
}
