// Added: the exported calls on throttles, command runs and leases. They wrap those of the crate `dshot`.
//
// A command run takes four slots: its two commands, its index, and how often the command is still to be sent.

ghost use Rattle.std.specs.Prelude.{◌≡◌, not, ◌<◌, eqb, get_or, MatchOption};
ghost use Rattle.dshot_reply_spec.specs.Answer.{given, refusal_number, filled};
ghost use Rattle.dshot_spec.specs.Packet.{flag};
ghost use Rattle.dshot_spec.specs.Throttle.{throttle_value, throttle_values};
ghost use Rattle.dshot_spec.specs.Command.{spin_direction, next_value};
ghost use Rattle.dshot_spec.specs.Lease.{lease_expired};
ghost use Rattle.dshot_reply_spec.specs.Refusals.{wrong_length};
ghost use Rattle.dshot_reply.specs.Answers.{answer};
ghost use Rattle.dshot_reply.specs.Refusals.{status_number};
ghost use Rattle.dshot.specs.Answers.{run_of, command_of};
ghost use Rattle.kuzhenga.specs.Slots.{asked};
ghost use Rattle.kuzhenga.specs.FrameSlots.{run_slots, run_at, command_slots};

use crate::slots::{Slots, put};
use dshot::{DshotCommandSequence, MotorValues, throttle_to_dshot, throttles_to_dshot};
use dshot_bank::DSHOT_COMMAND_MAX;
use dshot_reply::refusals::{Refusal, WrongLength, status_number};

// The DShot value of a throttle. A throttle above 2000 counts as 2000.
#[tactic(auto, unfolding(dshot_spec::specs::Throttle::throttle_value))]
#[unsafe(no_mangle)]
pub extern "C" fn kuzhenga_throttle_to_dshot(value: u32) -> u32
    ensures { result ≡ throttle_value value }
{
    let value = value.min(u32::from(DSHOT_COMMAND_MAX)) as u16;
    u32::from(throttle_to_dshot(value))
}

fn throttles(values: &[u16]) -> Result<MotorValues, WrongLength>
    ensures { answer (λ l. l) (λ _. wrong_length) result ≡ asked 4 values.now (given (throttle_values 4 values.now)) }
{
    // Each slot is read by itself. A host has often just written them one by one, and a read of all four together would wait for it.
    let [a, b, c, d] = values.as_array::<4>().ok_or(WrongLength)?;
    Ok(throttles_to_dshot([*a, *b, *c, *d]))
}

// The DShot values of four throttles.
#[unsafe(no_mangle)]
pub extern "C" fn kuzhenga_throttles_to_dshot(values: &[u16], out: &mut [u16]) -> u32
    ensures value { result ≡ refusal_number (asked 4 values.now (asked 4 out.old (given (throttle_values 4 values.now)))) }
    ensures out_after { out.new ≡ filled (λ l. l) out.old (asked 4 values.now (asked 4 out.old (given (throttle_values 4 values.now)))) }
{
    status_number(put(out, || throttles(values)))
}

impl Slots<4> for DshotCommandSequence {
    ghost slots = { λ run. run_slots (run_of run) };

    fn fill(&self, out: &mut [u16; 4]) {
        *out = [
            self.commands[0],
            self.commands[1],
            u16::from(self.index),
            u16::from(self.repeats_left),
        ];
    }
}

// A command in two slots: 1 and the command, or 0 and 0.
impl Slots<2> for Option<u16> {
    ghost slots = { λ command. command_slots (command_of command) };

    fn fill(&self, out: &mut [u16; 2]) {
        match *self {
            None => *out = [0, 0],
            Some(sent) => *out = [1, sent],
        }
    }
}

// The command run that sets the spin direction and then saves it, in four slots.
#[unsafe(no_mangle)]
pub extern "C" fn kuzhenga_command_spin_direction(reversed: u32, sequence: &mut [u16]) -> u32
    ensures value { result ≡ refusal_number (asked 4 sequence.old (given (spin_direction (not (eqb reversed 0))))) }
    ensures sequence_after { sequence.new ≡ filled run_slots sequence.old (asked 4 sequence.old (given (spin_direction (not (eqb reversed 0))))) }
{
    let run = DshotCommandSequence::spin_direction(reversed != 0);
    status_number(put(sequence, || Ok::<_, Refusal>(run)))
}

// The command run in four slots, or `None` if it is spent.
#[tactic(auto, unfolding(dshot_spec::specs::Command::next_value))]
fn run_at(slots: &[u16; 4]) -> Option<DshotCommandSequence>
    ensures { MatchOption result (1 < get_or slots.now 2 0) (λ run. next_value 10 (run_of run) ≡ next_value 10 (run_at slots.now)) }
{
    if 1 < slots[2] {
        return None;
    }
    Some(DshotCommandSequence {
        commands: [slots[0], slots[1]],
        index: slots[2] as u8,
        repeats_left: (slots[3] % 256) as u8,
    })
}

#[tactic(auto, unfolding(dshot_spec::specs::Command::next_value, crate::specs::Slots::asked))]
fn next_value(sequence: &mut [u16], value: &mut [u16]) -> Result<(), Refusal>
    ensures value { status_number result ≡ refusal_number (asked 4 sequence.old (asked 2 value.old (given (next_value 10 (run_at sequence.old))))) }
    ensures sequence_after { sequence.new ≡ filled (λ n. run_slots n.run) sequence.old (asked 4 sequence.old (asked 2 value.old (given (next_value 10 (run_at sequence.old))))) }
    ensures value_after { value.new ≡ filled (λ n. command_slots n.command) value.old (asked 4 sequence.old (asked 2 value.old (given (next_value 10 (run_at sequence.old))))) }
{
    let sequence = sequence.as_mut_array::<4>().ok_or(Refusal::WrongLength)?;
    let value = value.as_mut_array::<2>().ok_or(Refusal::WrongLength)?;
    let Some(mut run) = run_at(sequence) else {
        *value = [0, 0];
        return Ok(());
    };
    run.next_value().fill(value);
    run.fill(sequence);
    Ok(())
}

// Steps a run. Two slots take 1 and the command for the next frame. If the run is spent, they take 0 and 0.
#[unsafe(no_mangle)]
pub extern "C" fn kuzhenga_command_next_value(sequence: &mut [u16], value: &mut [u16]) -> u32
    ensures value { result ≡ refusal_number (asked 4 sequence.old (asked 2 value.old (given (next_value 10 (run_at sequence.old))))) }
    ensures sequence_after { sequence.new ≡ filled (λ n. run_slots n.run) sequence.old (asked 4 sequence.old (asked 2 value.old (given (next_value 10 (run_at sequence.old))))) }
    ensures value_after { value.new ≡ filled (λ n. command_slots n.command) value.old (asked 4 sequence.old (asked 2 value.old (given (next_value 10 (run_at sequence.old))))) }
{
    status_number(next_value(sequence, value))
}

// 1 if a command lease is older than its duration, else 0.
#[unsafe(no_mangle)]
pub extern "C" fn kuzhenga_command_lease_expired(
    started_ms: u64,
    duration_ms: u32,
    now_ms: u64,
) -> u32
    ensures { result ≡ flag (lease_expired started_ms duration_ms now_ms) }
{
    u32::from(dshot::command_lease_expired(started_ms, duration_ms, now_ms))
}
