// Added: the numbers of orders in an answer's slots, and of stored refusals; and how an answer is put into its slots.

ghost use Rattle.std.specs.Prelude.{◌≡◌, ◌+◌, ◌-◌, ◌<◌, ◌≤◌, ◌∷◌, ◌++◌, length, replicate};

use dshot_bank::orders::OrderKind;

// The kind of a stored refusal is this + its number. It is above the kinds of readings.
pub(crate) const REFUSED: u16 = 16;

// The orders: 8 x the kind. If the order is for one lane, the lane is added.
pub(crate) const EXCHANGE_BUFFER: u16 = 8 * OrderKind::ExchangeBuffer as u16;

// Added to an order to exchange if it gives the lane the second buffer.
pub(crate) const SECOND: u16 = 4;

const START_DMA: u16 = 8 * OrderKind::StartDma as u16;

const START_FRAME: u16 = 8 * OrderKind::StartFrame as u16;

pub(crate) const STOP_FRAME: u16 = 8 * OrderKind::StopFrame as u16;

const FORCE_OUTPUTS_LOW: u16 = 8 * OrderKind::ForceOutputsLow as u16;

pub(crate) const PAUSE_AND_CLEAR: u16 = 8 * OrderKind::PauseAndClear as u16;

pub(crate) const BEGIN_RECEIVE: u16 = 8 * OrderKind::BeginReceive as u16;

pub(crate) const END_RECEIVE: u16 = 8 * OrderKind::EndReceive as u16;

// The orders of a frame set that starts, behind its exchanges. All DMA streams are enabled before any timer DMA request is opened.
pub(crate) const STARTED_ORDERS: [u16; 5] = [
    START_DMA,
    START_DMA + 1,
    START_DMA + 2,
    START_DMA + 3,
    START_FRAME,
];

// The orders of a latched fault: the outputs low, then every stream paused.
pub(crate) const LATCH_ORDERS: [u16; 5] = [
    FORCE_OUTPUTS_LOW,
    PAUSE_AND_CLEAR,
    PAUSE_AND_CLEAR + 1,
    PAUSE_AND_CLEAR + 2,
    PAUSE_AND_CLEAR + 3,
];

// Puts an answer into its slots: the event, the number of orders, the orders, and zeros. The orders come in two lists, one behind the other.
// Without the hint the compiler makes a call of it at each use.
#[inline(always)]
pub(crate) fn tell<const N: usize>(out: &mut [u16; N], event: u16, first: &[u16], then: &[u16])
    requires { (2 + length first.now + length then.now ≤ N) × (N < 65536) }
    ensures { out.new ≡ event ∷ (length first.now + length then.now) ∷ (first.now ++ (then.now ++ replicate (N - (2 + length first.now + length then.now)) 0)) }
{
    let middle = 2 + first.len();
    let end = middle + then.len();
    let slots = &mut out[..];
    slots[0] = event;
    slots[1] = (first.len() + then.len()) as u16;
    // Loops are faster here: at each call `copy_from_slice` would test whether the two parts overlap.
    for (i, order) in first.iter().enumerate() {
        slots[2 + i] = *order;
    }
    for (i, order) in then.iter().enumerate() {
        slots[middle + i] = *order;
    }
    slots[end..].fill(0);
}
