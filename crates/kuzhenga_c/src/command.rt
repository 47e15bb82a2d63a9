// The calls of crates/kuzhenga/src/command.rt.

ghost use Rattle.std.specs.Prelude.{◌≡◌, not, eqb};
ghost use Rattle.dshot_reply_spec.specs.Answer.{given, refusal_number, filled};
ghost use Rattle.dshot_spec.specs.Packet.{flag};
ghost use Rattle.dshot_spec.specs.Throttle.{throttle_value, throttle_values};
ghost use Rattle.dshot_spec.specs.Command.{spin_direction, next_value};
ghost use Rattle.dshot_spec.specs.Lease.{lease_expired};
ghost use Rattle.kuzhenga.specs.Slots.{asked};
ghost use Rattle.kuzhenga.specs.FrameSlots.{run_slots, run_at, command_slots};

// The DShot value of a throttle. A throttle above 2000 counts as 2000.
#[unsafe(no_mangle)]
pub extern "C" fn kuzhenga_throttle_to_dshot(value: u32) -> u32
    ensures { result ≡ throttle_value value }
{
    kuzhenga::command::kuzhenga_throttle_to_dshot(value)
}

// The DShot values of four throttles.
#[unsafe(no_mangle)]
pub extern "C" fn kuzhenga_throttles_to_dshot(values: &[u16], out: &mut [u16]) -> u32
    ensures value { result ≡ refusal_number (asked 4 values.now (asked 4 out.old (given (throttle_values 4 values.now)))) }
    ensures out_after { out.new ≡ filled (λ l. l) out.old (asked 4 values.now (asked 4 out.old (given (throttle_values 4 values.now)))) }
{
    kuzhenga::command::kuzhenga_throttles_to_dshot(values, out)
}

// The command run that sets the spin direction and then saves it, in four slots.
#[unsafe(no_mangle)]
pub extern "C" fn kuzhenga_command_spin_direction(reversed: u32, sequence: &mut [u16]) -> u32
    ensures value { result ≡ refusal_number (asked 4 sequence.old (given (spin_direction (not (eqb reversed 0))))) }
    ensures sequence_after { sequence.new ≡ filled run_slots sequence.old (asked 4 sequence.old (given (spin_direction (not (eqb reversed 0))))) }
{
    kuzhenga::command::kuzhenga_command_spin_direction(reversed, sequence)
}

// Steps a run. Two slots take 1 and the command for the next frame. If the run is spent, they take 0 and 0.
#[unsafe(no_mangle)]
pub extern "C" fn kuzhenga_command_next_value(sequence: &mut [u16], value: &mut [u16]) -> u32
    ensures value { result ≡ refusal_number (asked 4 sequence.old (asked 2 value.old (given (next_value 10 (run_at sequence.old))))) }
    ensures sequence_after { sequence.new ≡ filled (λ n. run_slots n.run) sequence.old (asked 4 sequence.old (asked 2 value.old (given (next_value 10 (run_at sequence.old))))) }
    ensures value_after { value.new ≡ filled (λ n. command_slots n.command) value.old (asked 4 sequence.old (asked 2 value.old (given (next_value 10 (run_at sequence.old))))) }
{
    kuzhenga::command::kuzhenga_command_next_value(sequence, value)
}

// 1 if a command lease is older than its duration, else 0.
#[unsafe(no_mangle)]
pub extern "C" fn kuzhenga_command_lease_expired(
    started_ms: u64,
    duration_ms: u32,
    now_ms: u64,
) -> u32
    ensures { result ≡ flag (lease_expired started_ms duration_ms now_ms) }
{
    kuzhenga::command::kuzhenga_command_lease_expired(started_ms, duration_ms, now_ms)
}
