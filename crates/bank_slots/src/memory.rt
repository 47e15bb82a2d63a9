// Added: numbers of 32 and 64 bits in slots of 16, the lowest bits first.

ghost use Rattle.std.specs.Prelude.{◌≡◌, ◌+◌, ◌*◌, ◌<◌, length};
ghost use Rattle.dshot_bank_spec.specs.Replies.{wrapping_add};
ghost use Rattle.bank_slots_spec.specs.Memory.{at, word, long, write, word_rows, long_rows};
ghost use Rattle.bank_slots_spec.specs.Places.{slots};
ghost use Rattle.bank_slots_spec.specs.Load as Load;
ghost use Rattle.dshot_bank.specs.States.{choice_of};

use crate::SLOTS;
use dshot_bank::DshotMotor;

// The flag in a slot: 0 means no, any other number means yes.
pub(crate) fn flag(slot: u16) -> bool
    ensures { result ≡ Load.flag slot }
{
    slot != 0
}

// The motor in a slot: 0 means none, and a lane is one more.
pub(crate) fn motor_in(slot: u16) -> Option<DshotMotor>
    ensures { choice_of result ≡ Load.choice slot }
{
    let lane = slot.checked_sub(1)? % 4;
    DshotMotor::from_index(usize::from(lane))
}

fn joined(low: u16, high: u16) -> u32
    ensures { result ≡ high * 65536 + low }
{
    u32::from(high) * 65536 + u32::from(low)
}

pub(crate) fn joined_long(a: u16, b: u16, c: u16, d: u16) -> u64
    ensures { result ≡ a + 65536 * b + 4294967296 * c + 281474976710656 * d }
{
    u64::from(a) + 65536 * u64::from(b) + 4294967296 * u64::from(c) + 281474976710656 * u64::from(d)
}

// A number of 32 bits and one of 64 have functions of their own. A trait over both would have to name the rows of each, and be longer.
pub(crate) fn word_at(state: &[u16], k: usize) -> u32
    requires { k + 1 < length state.now }
    ensures { result ≡ word k (at state.now) }
{
    joined(state[k], state[k + 1])
}

pub(crate) fn long_at(state: &[u16; SLOTS], k: usize) -> u64
    requires { k + 3 < slots }
    ensures { result ≡ long k (at state.now) }
{
    joined_long(state[k], state[k + 1], state[k + 2], state[k + 3])
}

pub(crate) fn put_word(state: &mut [u16], k: usize, n: u32)
    requires { k + 1 < length state.old }
    ensures { state.new ≡ write (word_rows k n) state.old }
{
    state[k] = (n % 65536) as u16;
    state[k + 1] = (n / 65536) as u16;
}

pub(crate) fn put_long(state: &mut [u16; SLOTS], k: usize, n: u64)
    requires { k + 3 < slots }
    ensures { state.new ≡ write (long_rows k n) state.old }
{
    state[k] = (n % 65536) as u16;
    state[k + 1] = (n / 65536 % 65536) as u16;
    state[k + 2] = (n / 65536 / 65536 % 65536) as u16;
    state[k + 3] = (n / 65536 / 65536 / 65536 % 65536) as u16;
}

// Adds one to a count, which wraps at 2^32.
pub(crate) fn bump(state: &mut [u16; SLOTS], k: usize)
    requires { k + 1 < slots }
    ensures { state.new ≡ write (word_rows k (wrapping_add (word k (at state.old)))) state.old }
{
    let count = word_at(state, k);
    put_word(state, k, count.wrapping_add(1));
}
