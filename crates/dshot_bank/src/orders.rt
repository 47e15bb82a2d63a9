// Ported from crates/ferrowasp-stm32-critical/src/dshot_bank.rs of Eirik2020/ferro-wasp at commit 9cb8aca1a6, Copyright (c) 2026 Kaldstrand, under
// the Apache License, Version 2.0 (see NOTICE). Changed: ported to Rattle. The calls of `DshotLanes` that change the hardware became orders.
//
// The orders to the hardware that a call returns, in the order in which the host does them.

ghost use Rattle.std.specs.Prelude.{◌≡◌, ℕ, ◌+◌, ◌*◌, ◌<◌, ◌≤◌, List, [], ◌∷◌, ◌++◌};
ghost use Rattle.std.specs.Iterator.{at_most};
ghost use Rattle.dshot_spec.specs.Tabulate.{tabulate};
ghost use Rattle.dshot_bank_spec.specs.Order as Spec;
ghost use Rattle.dshot_bank_spec.specs.Order.{exchange_buffer, latch_orders, start_orders, refused_orders};
ghost use Rattle.dshot_bank.specs.States.{motor_of};
ghost use Rattle.dshot_bank.specs.Orders.{codes_of, above, held, kind_number, kind_at, first_order, rest_orders, Begins};
ghost use Rattle.dshot_bank_spec.specs.OrderNumber.{code};

use crate::{DshotMotor, LANES};

#[derive(Clone, Copy, Debug, PartialEq, Eq)]
pub enum OrderKind {
    // Swap the lane's spare in as its DMA buffer.
    ExchangeBuffer = 1,
    // Enable the lane's DMA stream. No timer request is open yet.
    StartDma,
    // Load the first duties, open the timer DMA requests, and start the timers so all four lanes begin together.
    StartFrame,
    // Close the DMA requests, stop the timers, and park every output low.
    StopFrame,
    // Stop, then gate every output off until the bank is rebuilt.
    ForceOutputsLow,
    // Disable the lane's DMA stream and clear its flags.
    PauseAndClear,
    // Release the pins, retime the timers to pace sampling, switch each stream to fill its lane's sample buffer from the pin, and start.
    BeginReceive,
    // Turn each lane back to transmit, with its output parked.
    EndReceive,
}

// One order and its lane. If the order is for all lanes, the lane is 0.
#[derive(Clone, Copy, Debug, PartialEq, Eq)]
pub struct Order {
    pub kind: OrderKind,
    pub motor: u8,
}

// The most orders that a call gives. First comes an exchange for each lane. Then come five more: a start for each lane and the frame's, or the
// outputs low and a pause for each lane.
pub const MOST_ORDERS: usize = 2 * LANES + 1;

// `count` orders in one number, the first in its lowest seven bits. An order is 8 x its kind + its motor. A call returns them in a register. An array
// would go through memory at every call.
#[derive(Clone, Copy)]
pub struct Orders {
    pub count: usize,
    pub codes: u64,
}

// The numbers of orders: 8 x the kind, to which a lane is added.
const EXCHANGE: u64 = 8 * OrderKind::ExchangeBuffer as u64;

const START: u64 = 8 * OrderKind::StartDma as u64;

const START_FRAME: u64 = 8 * OrderKind::StartFrame as u64;

const FORCE_LOW: u64 = 8 * OrderKind::ForceOutputsLow as u64;

const PAUSE: u64 = 8 * OrderKind::PauseAndClear as u64;

// The factors that move a number up by one order, by two, and so on.
const UP: u64 = 128;

const UP_2: u64 = UP * UP;

const UP_3: u64 = UP * UP_2;

const UP_4: u64 = UP * UP_3;

// The exchanges of the first lane, of the first two lanes, and so on.
const EXCHANGES_1: u64 = EXCHANGE;

const EXCHANGES_2: u64 = EXCHANGE + UP * (EXCHANGE + 1);

const EXCHANGES_3: u64 = EXCHANGE + UP * (EXCHANGE + 1 + UP * (EXCHANGE + 2));

const EXCHANGES_4: u64 = EXCHANGES_3 + UP_3 * (EXCHANGE + 3);

// A start for each lane.
const STARTS: u64 = START + UP * (START + 1 + UP * (START + 2 + UP * (START + 3)));

// The four exchanges, then the starts, then the start of the frame.
const STARTED: u64 = EXCHANGES_4 + UP_4 * (STARTS + UP_4 * START_FRAME);

// A pause for each lane.
const PAUSES: u64 = PAUSE + UP * (PAUSE + 1 + UP * (PAUSE + 2 + UP * (PAUSE + 3)));

// The outputs low, then the pauses.
const LATCHED: u64 = FORCE_LOW + UP * PAUSES;

// The orders of a latched fault, moved up by some orders.
#[tactic(auto, using(crate::proofs::OrderLaws::moved_up), unfolding(dshot_spec::specs::Tabulate::tabulate))]
fn latched_above(orders: usize) -> u64
    requires { orders ≤ 4 }
    ensures { (result ≡ above orders (codes_of (latch_orders 4))) × (result < 4611686018427387904) }
{
    LATCHED << (7 * orders)
}

impl OrderKind {
    pub fn number(self) -> u64
        ensures { result ≡ kind_number self }
    {
        self as u64
    }

    // The kind of a number.
    pub fn of(number: u64) -> Option<Self>
        ensures { result ≡ kind_at number }
    {
        match number {
            1 => Some(OrderKind::ExchangeBuffer),
            2 => Some(OrderKind::StartDma),
            3 => Some(OrderKind::StartFrame),
            4 => Some(OrderKind::StopFrame),
            5 => Some(OrderKind::ForceOutputsLow),
            6 => Some(OrderKind::PauseAndClear),
            7 => Some(OrderKind::BeginReceive),
            8 => Some(OrderKind::EndReceive),
            _ => None,
        }
    }
}

impl Iterator for Orders {
    type Item = Order;

    ghost next_gives = { λ s r t. (r ≡ first_order s) × (t ≡ rest_orders s) };

    ghost remaining = { λ s. at_most s.count };

    // The first order, which is taken away. A number of no kind before it is passed over; no call gives one. So a loop over orders gives what
    // `orders_of` lists. If all that is left is zeros, there is no order.
    fn next(&mut self) -> Option<Order> {
        while self.count > 0 && self.codes > 0 {
            let entry = self.codes % 128;
            self.count -= 1;
            self.codes /= 128;
            let Some(kind) = OrderKind::of(entry / 8) else {
                continue;
            };
            return Some(Order {
                kind,
                motor: (entry % 8) as u8,
            });
        }
        self.count = 0;
        None
    }
}

#[tactic(auto, unfolding(crate::specs::Orders::held, dshot_spec::specs::Tabulate::tabulate))]
impl Orders {
    pub(crate) fn none() -> Self
        ensures { (result.count ≡ 0) × (result.codes ≡ 0) × (result ≡ held []) }
    {
        Orders { count: 0, codes: 0 }
    }

    // The order with which every interrupt begins: the pause of its lane.
    pub(crate) fn paused(motor: DshotMotor) -> Self
        ensures { (result.count ≡ 1) × (result.codes < 128) × Begins result motor }
    {
        Orders {
            count: 1,
            codes: PAUSE + motor as u64,
        }
    }

    // One order, and behind it an order for all lanes.
    pub(crate) fn then(self, kind: OrderKind) -> Self
        requires { (self.count ≡ 1) × (self.codes < 128) }
        ensures { (result.count ≡ 2) × (result.codes < 2097152) × ((x y : Spec.Order) → code y ≡ 8 * kind_number kind → self ≡ held (x ∷ []) → result ≡ held (x ∷ y ∷ [])) }
    {
        Orders {
            count: 2,
            codes: self.codes + UP * (8 * kind.number()),
        }
    }

    // At most four orders, and behind them those of a latched fault.
    #[tactic(auto, using(crate::proofs::OrderLaws::held_append), unfolding(dshot_spec::specs::Tabulate::tabulate))]
    pub(crate) fn latched(self) -> Self
        requires { (self.count ≤ 4) × (self.codes < 268435456) }
        ensures { (l : List Spec.Order) → self ≡ held l → result ≡ held (l ++ latch_orders 4) }
    {
        Orders {
            count: self.count + 5,
            codes: self.codes + latched_above(self.count),
        }
    }

    // An exchange for each lane up to that of this motor.
    fn exchanged(motor: DshotMotor) -> Self
        ensures { (result.count ≤ 4) × (result.codes < 268435456) × (result ≡ held (tabulate (motor_of motor + 1) exchange_buffer)) }
    {
        match motor {
            DshotMotor::Motor1 => Orders {
                count: 1,
                codes: EXCHANGES_1,
            },
            DshotMotor::Motor2 => Orders {
                count: 2,
                codes: EXCHANGES_2,
            },
            DshotMotor::Motor3 => Orders {
                count: 3,
                codes: EXCHANGES_3,
            },
            DshotMotor::Motor4 => Orders {
                count: 4,
                codes: EXCHANGES_4,
            },
        }
    }

    // The orders of a frame set that starts. All DMA streams are enabled before any timer DMA request is opened.
    pub(crate) fn started() -> Self
        ensures { (duties : List ℕ) → result ≡ held (start_orders 4 duties) }
    {
        Orders {
            count: MOST_ORDERS,
            codes: STARTED,
        }
    }

    // The orders of a frame set if this motor refuses its buffer.
    pub(crate) fn refused(motor: DshotMotor) -> Self
        ensures { result ≡ held (refused_orders 4 (motor_of motor)) }
    {
        Orders::exchanged(motor).latched()
    }
}
