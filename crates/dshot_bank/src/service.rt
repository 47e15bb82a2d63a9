// Ported from crates/ferrowasp-stm32-critical/src/dshot_bank.rs of Eirik2020/ferro-wasp at commit 9cb8aca1a6, Copyright (c) 2026 Kaldstrand, under
// the Apache License, Version 2.0 (see NOTICE). Changed: ported to Rattle, with a promise for the call. The call refuses lent buffers of another
// length.
//
// The service of a bank: the lease, the frame in flight, the replies that wait, and the next frame set.

ghost use Rattle.std.specs.Prelude.{◌≡◌, [], replicate, Err};
ghost use Rattle.dshot_bank_spec.specs.State.{Buffers};
ghost use Rattle.dshot_bank_spec.specs.Service.{demand_expired, expire_lease, service_busy, replies_read, read_replies, sent_event};
ghost use Rattle.dshot_bank_spec.specs.Service as Spec;
ghost use Rattle.dshot_bank_spec.specs.Calls.{Stepped, service_call};
ghost use Rattle.dshot_bank_spec.specs.Steps.{service_fits, step};
ghost use Rattle.dshot_bank.specs.States.{demand_of, core_of, replies_of, bank_of};
ghost use Rattle.dshot_bank.specs.Orders.{held, orders_of, Just};
ghost use Rattle.dshot_bank.specs.Serves.{service_event_of, service_answer, Skips, Serves};

use crate::looks::buffers_fit;
use crate::orders::Orders;
use crate::replies::{LaneAnswers, LaneFlags, decode_replies};
use crate::send::Handled;
use crate::{
    Core, DSHOT_FRAME_TIMEOUT_MS, Demand, DshotBank, LANES, LaneReply, SAMPLES, Samples, Slots,
};
use dshot::{MotorValues, command_lease_expired};
use dshot_reply::refusals::WrongLength;

#[derive(Clone, Copy, Debug, PartialEq, Eq)]
pub enum DshotServiceEvent {
    FrameStarted,
    Busy,
    LeaseExpired,
    Faulted,
}

// The answer, the orders, the first duties for `StartFrame` (zeros without it), and the bank after the call.
#[derive(Clone, Copy)]
pub struct Served {
    pub answer: Result<DshotServiceEvent, WrongLength>,
    pub orders: Orders,
    pub first_duties: MotorValues,
    pub bank: DshotBank,
}

#[tactic(auto, unfolding(dshot_bank_spec::specs::Service::demand_expired, dshot_spec::specs::Lease::lease_expired))]
impl Demand {
    fn expired(self, now_ms: u64) -> bool
        ensures { result ≡ demand_expired now_ms (demand_of self) }
    {
        self.lease_duration_ms.is_some_and(|duration| now_ms.wrapping_sub(self.lease_started_ms)
            > duration)
    }
}

impl Core {
    // Whether the lease is over, and the core after its end.
    #[tactic(auto, unfolding(dshot_bank_spec::specs::Service::expire_lease, dshot_bank_spec::specs::Commands::command_stop))]
    fn expire_lease(mut self, now_ms: u64) -> (bool, Self)
        ensures value { result.0 ≡ demand_expired now_ms (demand_of self.demand) }
        ensures core { core_of result.1 ≡ expire_lease 4 result.0 (core_of self) }
    {
        let expired = self.demand.expired(now_ms);
        if expired {
            self.demand = self.demand.stopped();
            self.stats.lease_expiries = self.stats.lease_expiries.wrapping_add(1);
        }
        (expired, self)
    }

    // A frame is in flight.
    #[tactic(auto, unfolding(dshot_bank_spec::specs::Service::service_busy, dshot_spec::specs::Tabulate::tabulate))]
    fn service_busy(mut self, now_ms: u64, lease_expired: bool) -> Handled<DshotServiceEvent>
        ensures { Skips result (service_busy 4 now_ms lease_expired (core_of self)) }
    {
        self.stats.busy_skips = self.stats.busy_skips.wrapping_add(1);
        if command_lease_expired(self.frame.frame_started_ms, DSHOT_FRAME_TIMEOUT_MS, now_ms) {
            self.stats.frame_timeouts = self.stats.frame_timeouts.wrapping_add(1);
            let orders = Orders::none().latched();
            return self
                .latch_fault(false)
                .handled(DshotServiceEvent::Faulted, orders);
        }
        let event = if lease_expired {
            DshotServiceEvent::LeaseExpired
        } else {
            DshotServiceEvent::Busy
        };
        self.handled(event, Orders::none())
    }
}

impl Handled<DshotServiceEvent> {
    fn served(self, replies: [LaneReply; LANES]) -> Served
        ensures { (b : Buffers) (s : Spec.Skipped) → Skips self s → Serves result b (Spec.unsent 4 0 [] [] [] [] (replies_of replies) b s) }
    {
        Served {
            answer: Ok(self.event),
            orders: self.orders,
            first_duties: [0; LANES],
            bank: DshotBank {
                core: self.core,
                replies,
            },
        }
    }
}

// The event of a service that sends, or that a lane refused.
pub fn sent_event(started: bool, lease_expired: bool) -> DshotServiceEvent
    ensures { service_event_of result ≡ sent_event started lease_expired }
{
    if !started {
        DshotServiceEvent::Faulted
    } else if lease_expired {
        DshotServiceEvent::LeaseExpired
    } else {
        DshotServiceEvent::FrameStarted
    }
}

// Whether two buffers and the captures have the lengths that a service takes.
pub fn lengths_fit(first: usize, second: usize, captures: usize) -> bool
    ensures { result ≡ service_fits 4 first second captures }
{
    buffers_fit(first, second) && captures == SAMPLES
}

impl DshotBank {
    // Decodes the last receive window, if one waits.
    #[tactic(auto, unfolding(dshot_bank_spec::specs::Service::replies_read, dshot_bank_spec::specs::Service::read_replies))]
    fn read_replies(mut self, answers: LaneAnswers, captures: &Samples) -> Self
        ensures core { core_of result.core ≡ replies_read (core_of self.core) }
        ensures replies { replies_of result.replies ≡ read_replies 4 self.core.frame.replies_waiting answers.present answers.masks captures.now (replies_of self.replies) }
    {
        if self.core.frame.replies_waiting {
            self.core.frame.replies_waiting = false;
            self.core.frame.replies_held = true;
            self.replies = decode_replies(self.replies, answers, captures);
        }
        self
    }

    // Sends a frame set. None is in flight.
    fn send(
        self,
        lease_expired: bool,
        now_ms: u64,
        taken: LaneFlags,
        first: &mut Slots,
        second: &mut Slots,
    ) -> Served
        ensures { Serves result (record { first = first.exit.now; second = second.new }) (Spec.sending 4 now_ms taken [] [] [] [] (record { first = first.entry.now; second = second.old }) lease_expired (core_of self.core) (replies_of self.replies)) }
    {
        let replies = self.replies;
        let sent = self.core.send_requested(now_ms, taken, first, second);
        Served {
            answer: Ok(sent_event(sent.first_duties.is_some(), lease_expired)),
            orders: sent.orders,
            first_duties: sent.first_duties.unwrap_or([0; LANES]),
            bank: DshotBank {
                core: sent.core,
                replies,
            },
        }
    }

    #[tactic(auto, unfolding(dshot_bank_spec::specs::Service::service_core, dshot_bank_spec::specs::Commands::clear_request_sent))]
    fn service_lanes(
        self,
        now_ms: u64,
        answers: LaneAnswers,
        first: &mut Slots,
        second: &mut Slots,
        captures: &Samples,
    ) -> Served
        ensures { Serves result (record { first = first.exit.now; second = second.new }) (Spec.service 4 now_ms answers.taken answers.present answers.masks captures.now (bank_of self) (record { first = first.entry.now; second = second.old })) }
    {
        let replies = self.replies;
        let mut core = self.core;
        core.requests.telemetry_request_sent = None;
        if core.frame.faulted {
            return core
                .handled(DshotServiceEvent::Faulted, Orders::none())
                .served(replies);
        }
        let (lease_expired, core) = core.expire_lease(now_ms);
        if core.frame.busy {
            return core.service_busy(now_ms, lease_expired).served(replies);
        }
        DshotBank { core, replies }
            .read_replies(answers, captures)
            .send(lease_expired, now_ms, answers.taken, first, second)
    }

    // The refusal of a lent buffer.
    fn unserved(self) -> Served
        ensures { result ≡ record { answer = Err (record {}); orders = held []; first_duties = replicate 4 0; bank = self } }
    {
        Served {
            answer: Err(WrongLength),
            orders: Orders::none(),
            first_duties: [0; LANES],
            bank: self,
        }
    }

    // A lane's capture is its window of `captures`, read at its mask.
    #[tactic(auto, unfolding(dshot_bank_spec::specs::Steps::step, dshot_bank_spec::specs::Steps::port_refusal))]
    pub fn service(
        self,
        now_ms: u64,
        answers: LaneAnswers,
        first: &mut [u16],
        second: &mut [u16],
        captures: &[u16],
    ) -> Served
        ensures fact { ◌≡◌ {A = Stepped} (record { answer = service_answer result.answer (orders_of result.orders result.first_duties) (bank_of self).core.frame.in_second; state = record { bank = bank_of result.bank; buffers = record { first = first.exit.now; second = second.new } } }) (step 4 (record { bank = bank_of self; buffers = record { first = first.entry.now; second = second.old } }) (service_call now_ms answers.taken answers.present answers.masks captures.now)) }
        ensures just { Just result.orders result.first_duties (service_answer result.answer (orders_of result.orders result.first_duties) (bank_of self).core.frame.in_second) }
    {
        let Some(first) = first.as_mut_array() else {
            return self.unserved();
        };
        let Some(second) = second.as_mut_array() else {
            return self.unserved();
        };
        let Some(captures) = captures.as_array() else {
            return self.unserved();
        };
        self.service_lanes(now_ms, answers, first, second, captures)
    }
}
