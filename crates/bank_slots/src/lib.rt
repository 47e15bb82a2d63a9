// Added: the calls of a bank on its state in lent slots, for hosts that keep it in slots. A call of the crate `dshot_bank` takes a bank and hands it
// back. The call here does the same to the bank in the slots. It writes only the slots that change.
#![tactic(auto)]

// Numbers in slots.
mod memory;

// The numbers of orders, and how an answer is put into its slots.
mod numbers;

// The steps that calls are made of.
mod steps;

// Making a bank, and commanding it.
pub mod commands;

// The interrupts of a bank.
pub mod interrupt;

// Calls that only look, the taking of replies, and the view.
pub mod looks;

// Replies and their counts.
mod replies;

// Frame sets.
mod send;

// The service of a bank.
pub mod service;

// The slots of a state.
pub const SLOTS: usize = 97;

// The slots of the hardware's answers: for each lane whether it took its buffer, whether it has a capture, and its mask.
pub const LANES_SLOTS: usize = 12;

// The slots of a service's answer: the event, the number of orders, nine for the orders, and the first duties.
pub const SERVICE_SLOTS: usize = 15;

// The slots of an interrupt's answer: the event, the number of orders, and seven for the orders.
pub const INTERRUPT_SLOTS: usize = 9;

// The slots of the counts, of the replies' counts, and of the replies.
pub const STATS_SLOTS: usize = 22;

pub const REPLY_STATS_SLOTS: usize = 24;

pub const REPLIES_SLOTS: usize = 17;

// Where each field lies. A number of 32 bits takes two slots from its place on, and one of 64 bits takes four.
pub(crate) const VALUES: usize = 4;

pub(crate) const LEASE_STARTED: usize = 8;

pub(crate) const LEASE_OVER: usize = 12;

pub(crate) const REQUEST: usize = 16;

pub(crate) const REQUEST_SENT: usize = 17;

// A run: its motor or none, the two commands, the index, and the repeats left.
pub(crate) const RUN: usize = 18;

pub(crate) const BUSY: usize = 23;

pub(crate) const FAULTED: usize = 24;

pub(crate) const BIDIRECTIONAL: usize = 25;

pub(crate) const RECEIVING: usize = 26;

pub(crate) const REPLIES_WAITING: usize = 27;

pub(crate) const REPLIES_HELD: usize = 28;

pub(crate) const IN_SECOND: usize = 29;

pub(crate) const COMPLETION_MASK: usize = 33;

pub(crate) const STARTED: usize = 35;

// The counts, in the order of DshotStats.
pub(crate) const FRAMES_STARTED: usize = 39;

pub(crate) const FRAMES_COMPLETED: usize = 41;

pub(crate) const LANE_COMPLETIONS: usize = 43;

pub(crate) const BUSY_SKIPS: usize = 51;

pub(crate) const LEASE_EXPIRIES: usize = 53;

pub(crate) const FRAME_TIMEOUTS: usize = 55;

pub(crate) const DMA_FAULTS: usize = 57;

pub(crate) const SPURIOUS: usize = 59;

// Nine slots a lane: the reply's kind and number, and three counts.
pub(crate) const REPLIES: usize = 61;

pub(crate) const PER_LANE: usize = 9;
