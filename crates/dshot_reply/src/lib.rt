// Ported from crates/ferrowasp-output/src/dshot_reply.rs of Eirik2020/ferro-wasp at commit 9cb8aca1a6, Copyright (c) 2026 Kaldstrand, under
// the Apache License, Version 2.0 (see NOTICE). Changed: ported to Rattle, with a promise for each call; the simulated ESC is added.
//
// Bidirectional DShot replies: what an ESC answers on its motor wire after each frame, from the sampled pin to eRPM or a telemetry reading.
//
// After a command frame with an inverted checksum, the ESC drives the line itself about 30 us after the frame ends. It sends 21 bits at 5/4 of
// the command bit rate, 750 kbit/s at DShot600. The line idles high, and every bit that is 1 is a transition. The first bit is always 1: the
// falling start edge. The 20 after it are four 5-bit GCR symbols, which decode to 16 bits: a 12-bit value and a 4-bit checksum. The value is an
// eRPM period or, with extended telemetry (EDT) on, a typed reading.
//
// Each layer works alone:
// - `reply_transitions` turns pin samples, `REPLY_SAMPLES_PER_BIT` per bit, into the 21 transition bits;
// - `decode_gcr` turns those into the checked 12-bit value;
// - `DshotReply::from_value` turns the value into eRPM or a reading.
//
// The sampling layer follows Betaflight's `drivers/dshot_bitbang_decode.c`, and the value layer its `drivers/dshot.c`, at commit `41a5b43`.
//
// The source's requirements: OUTPUT-003, OUTPUT-010, OUTPUT-011, OUTPUT-012, OUTPUT-013. Safety-critical.
#![tactic(auto)]

ghost use Rattle.std.specs.Prelude.{◌≡◌, ◌+◌, ◌*◌, ◌-◌, ◌^◌, ◌≤◌, ◌<◌, true, not, ◌&&◌, fold, position, length};
ghost use Rattle.std.specs.Bool.{beq};
ghost use Rattle.std.specs.List.{prefix_len};
ghost use Rattle.dshot_reply_spec.specs.Gcr.{symbol_of, nibble_of, reply_word, decode_word};
ghost use Rattle.dshot_reply_spec.specs.Runs.{high, levels, run_bits, runs_of, assemble, transitions_of};
ghost use Rattle.dshot_reply_spec.specs.Value.{speed_of, speed_value, reading_of, reply_of};
ghost use Rattle.dshot_reply_spec.specs.Reading.{sampled_reply};
ghost use Rattle.dshot_reply.specs.Answers.{number_answer, reading, reply_answer, error_number};
ghost use Rattle.dshot_reply.specs.Steps.{Encodes, Decodes, closed};

// Not in the source: a reply as two numbers, the period of a value, the numbers of refusals, and the simulated ESC.
pub mod kind;
pub mod period;
pub mod refusals;
pub mod simulate;

// Bits in a reply, the start edge included.
pub const REPLY_BITS: u32 = 21;

// Pin samples per reply bit: 2.25 MHz at DShot600.
pub const REPLY_SAMPLES_PER_BIT: usize = 3;

// Samples a lane takes after each frame: about 71 us at DShot600, which covers the ESC's ~30 us turnaround and its 28 us reply with margin.
// Betaflight takes 140; the margin absorbs the firmware's slower turnaround until it is measured.
pub const REPLY_WINDOW_SAMPLES: usize = 160;

// A start edge needs this many samples after it, two bits short of a whole reply, to be taken as one.
const MIN_REPLY_SAMPLES: usize = (REPLY_BITS as usize - 2) * REPLY_SAMPLES_PER_BIT;

// How far after the start edge a reply is read: two bits past its end, so the edge back to idle closes its last bit.
const MAX_REPLY_SAMPLES: usize = (REPLY_BITS as usize + 2) * REPLY_SAMPLES_PER_BIT;

// Fewer bits than this between edges and no reply was seen. The last bits of a reply may carry no edge, so the remainder up to 21 is filled in.
const MIN_EDGE_BITS: u32 = 18;

// The ESC's answer to the EDT-enable command (13) before EDT is on.
pub const EDT_ENABLE_ACK: u16 = 0x0e00;

// The value an ESC sends for a stopped motor.
const ERPM_STOPPED: u16 = 0x0fff;

// Why a reply could not be decoded. Every one is dropped and counted, never treated as a reading. `refusals.rt` gives each its number.
#[derive(Clone, Copy, Debug, PartialEq, Eq)]
pub enum DshotReplyError {
    // No start edge with room for a whole reply after it, or too few edges after one.
    NoReply,
    // More edges than a reply holds.
    Overlong,
    // A 5-bit group that is not a GCR symbol.
    InvalidSymbol,
    // The checksum does not match.
    Checksum,
    // An eRPM period of zero, which no ESC sends.
    ZeroPeriod,
}

// The GCR symbol of each nibble.
const GCR_ENCODE: [u32; 16] = [
    0x19, 0x1b, 0x12, 0x13, 0x1d, 0x15, 0x16, 0x17, 0x1a, 0x09, 0x0a, 0x0b, 0x1e, 0x0d, 0x0e, 0x0f,
];

fn nibble_symbol(table: &[u32; 16], nibble: u16) -> u32
    requires { Encodes table.now × (nibble < 16) }
    ensures { (result ≡ symbol_of nibble) × (result < 32) }
{
    table[usize::from(nibble)]
}

// What an ESC sends for `value`, as transition bits: the checksum, the GCR symbols, and the start edge. For simulating replies.
#[tactic(auto, using(crate::proofs::Tables::encode_cases), unfolding(dshot_reply_spec::specs::Gcr::reply_word, dshot_reply_spec::specs::Gcr::word_of))]
pub fn reply_transitions_for(value: u16) -> u32
    ensures { result ≡ reply_word value }
{
    let table = GCR_ENCODE;
    let a = value / 256 % 16;
    let b = value / 16 % 16;
    let c = value % 16;
    let checksum = a ^ b ^ c ^ 0x0f;
    let s3 = nibble_symbol(&table, a);
    let s2 = nibble_symbol(&table, b);
    let s1 = nibble_symbol(&table, c);
    let s0 = nibble_symbol(&table, checksum);
    (((32 + s3) * 32 + s2) * 32 + s1) * 32 + s0
}

fn is_high(sample: u16, pin_mask: u16) -> bool
    ensures { result ≡ high pin_mask sample }
{
    sample & pin_mask != 0
}

// Whether eight samples are high. It has no branch, so the eight are tested together.
fn all_high(eight: &[u16; 8], pin_mask: u16) -> bool
    ensures { result ≡ fold (λ all x. all && high pin_mask x) true eight.now }
{
    eight
        .iter()
        .fold(true, |high, sample| high & is_high(*sample, pin_mask))
}

// The place of the first sample that is not at `level`.
fn first_off(samples: &[u16], pin_mask: u16, level: bool) -> Option<usize>
    ensures { result ≡ position (λ x. not (beq (high pin_mask x) level)) samples.now }
{
    samples
        .iter()
        .position(|sample| is_high(*sample, pin_mask) != level)
}

// How long the run is that the samples begin with, if it ends. Each level has a loop of its own, which is faster.
fn run_length(samples: &[u16], pin_mask: u16, level: bool) -> Option<usize>
    ensures { result ≡ position (λ x. not (beq (high pin_mask x) level)) samples.now }
{
    if level {
        first_off(samples, pin_mask, true)
    } else {
        first_off(samples, pin_mask, false)
    }
}

// How many groups of eight, from the first on, are high.
fn high_eights(eights: &[[u16; 8]], pin_mask: u16) -> usize
    ensures { result ≡ prefix_len (fold (λ all x. all && high pin_mask x) true) eights.now }
{
    eights
        .iter()
        .take_while(|eight| all_high(eight, pin_mask))
        .count()
}

// The place of the first low sample. It passes over high samples, eight at a time.
fn first_low(samples: &[u16], pin_mask: u16) -> Option<usize>
    ensures { result ≡ position (λ x. not (beq (high pin_mask x) true)) samples.now }
{
    let (eights, _) = samples.as_chunks();
    let passed = 8 * high_eights(eights, pin_mask);
    let low = first_off(&samples[passed..], pin_mask, true)?;
    Some(passed + low)
}

// The run's samples, rounded to the nearest bit and never under one.
fn run_bits(samples: usize) -> u32
    requires { samples ≤ 69 }
    ensures { result ≡ run_bits 3 samples }
{
    ((samples + 1) / REPLY_SAMPLES_PER_BIT).max(1) as u32
}

// The bits so far, then a 1 and `run` - 1 zeros.
#[tactic(auto, using(crate::proofs::WordLaws::push_or))]
fn push_run(transitions: u32, run: u32) -> u32
    requires { (0 < run) × (run ≤ 21) × (transitions * 2 ^ run < 2 ^ 21) }
    ensures { result ≡ transitions * 2 ^ run + 2 ^ (run - 1) }
{
    (transitions << run) | (1 << (run - 1))
}

// The answer at the end of reading. If too few bits were seen, there is no reply. Otherwise the missing bits are one last run.
#[tactic(auto, using(crate::proofs::WordLaws::push_room), unfolding(crate::specs::Steps::closed))]
fn close(bits: u32, transitions: u32) -> Result<u32, DshotReplyError>
    requires { (bits ≤ 21) × (transitions < 2 ^ bits) }
    ensures { number_answer result ≡ closed bits transitions }
{
    if bits < MIN_EDGE_BITS {
        return Err(DshotReplyError::NoReply);
    }
    if bits < REPLY_BITS {
        return Ok(push_run(transitions, REPLY_BITS - bits));
    }
    Ok(transitions)
}

// The finished runs of samples that begin at the start edge, as transition bits.
fn read_runs(samples: &[u16], pin_mask: u16) -> Result<u32, DshotReplyError>
    requires { length samples.now ≤ 69 }
    ensures { number_answer result ≡ assemble (runs_of 3 (levels pin_mask samples.now)) }
{
    let mut left = samples;
    let mut level = false;
    let mut bits: u32 = 0;
    let mut transitions: u32 = 0;
    while let Some(length) = run_length(left, pin_mask, level) {
        let run = run_bits(length);
        if REPLY_BITS - bits < run {
            return Err(DshotReplyError::Overlong);
        }
        transitions = push_run(transitions, run);
        bits += run;
        left = &left[length..];
        level = !level;
    }
    close(bits, transitions)
}

// Turns pin samples into a reply's 21 transition bits, most significant first. `pin_mask` selects the motor's pin in each sample, so a sample
// can be a whole GPIO input register.
pub fn reply_transitions(samples: &[u16], pin_mask: u16) -> Result<u32, DshotReplyError>
    ensures { number_answer result ≡ transitions_of 3 samples.now pin_mask }
{
    // At least `MIN_REPLY_SAMPLES` samples must follow from the start on.
    let starts = samples.len().saturating_sub(MIN_REPLY_SAMPLES - 1);
    let start = first_low(&samples[..starts], pin_mask).ok_or(DshotReplyError::NoReply)?;
    let end = start + (samples.len() - start).min(MAX_REPLY_SAMPLES);
    read_runs(&samples[start..end], pin_mask)
}

// GCR symbol to nibble; `INVALID` marks the 16 codes that are not symbols.
const INVALID: u8 = 0xff;

const GCR_DECODE: [u8; 32] = [
    INVALID, INVALID, INVALID, INVALID, INVALID, INVALID, INVALID, INVALID, INVALID, 0x9, 0xa, 0xb,
    INVALID, 0xd, 0xe, 0xf, INVALID, INVALID, 0x2, 0x3, INVALID, 0x5, 0x6, 0x7, INVALID, 0x0, 0x8,
    0x1, INVALID, 0x4, 0xc, INVALID,
];

fn symbol_nibble(table: &[u8; 32], symbol: u32) -> u32
    requires { Decodes table.now × (symbol < 32) }
    ensures { (result ≡ nibble_of symbol) × (result < 256) }
{
    u32::from(table[symbol as usize])
}

// Decodes a reply's transition bits to its 12-bit value, checking every symbol and the checksum. The start edge, bit 20, is ignored.
#[tactic(auto, using(crate::proofs::DecodeLaws::decode_cases), unfolding(dshot_reply_spec::specs::Gcr::nibble_of))]
pub fn decode_gcr(transitions: u32) -> Result<u16, DshotReplyError>
    ensures { number_answer result ≡ decode_word transitions }
{
    let table = GCR_DECODE;
    let a = symbol_nibble(&table, transitions / 32768 % 32);
    let b = symbol_nibble(&table, transitions / 1024 % 32);
    let c = symbol_nibble(&table, transitions / 32 % 32);
    let d = symbol_nibble(&table, transitions % 32);
    // A nibble is at most 15 and `INVALID` is 255, so one test finds a bad symbol among three. With one test for each of the four symbols, a word
    // took 2.4 ns and 50 instructions. Now it takes 2.1 ns and 41 instructions.
    if 45 < a + b + c {
        return Err(DshotReplyError::InvalidSymbol);
    }
    // The nibbles of value and checksum XOR to all ones. Three nibbles and `INVALID` do not.
    if a ^ b ^ c ^ d == 15 {
        return Ok((a * 256 + b * 16 + c) as u16);
    }
    if 15 < d {
        return Err(DshotReplyError::InvalidSymbol);
    }
    Err(DshotReplyError::Checksum)
}

// One decoded reply.
#[derive(Clone, Copy, Debug, PartialEq, Eq)]
pub enum DshotReply {
    // Electrical RPM divided by 100, as in the legacy UART frame; zero for a stopped motor.
    Erpm { erpm_div100: u32 },
    // ESC temperature in degrees Celsius.
    Temperature { celsius: u8 },
    // ESC supply voltage, 0.25 V per count.
    Voltage { quarter_volts: u8 },
    // ESC current, 1 A per count.
    Current { amps: u8 },
    // An ESC debug value, channel 1 to 3.
    Debug { channel: u8, value: u8 },
    // An EDT state or event report.
    StateEvent { value: u8 },
    // The ESC acknowledged the EDT-enable command.
    ExtendedTelemetryEnabled,
}

// 60,000,000 us per minute, over 100, rounded.
#[tactic(auto, unfolding(dshot_reply_spec::specs::Value::speed_of))]
fn speed_of(period_us: u32) -> Result<DshotReply, DshotReplyError>
    requires { period_us < 2 ^ 16 }
    ensures { reply_answer result ≡ speed_of period_us }
{
    if period_us == 0 {
        return Err(DshotReplyError::ZeroPeriod);
    }
    let erpm_div100 = (600_000 + period_us / 2) / period_us;
    Ok(DshotReply::Erpm { erpm_div100 })
}

// eee mmmmmmmmm: the period in microseconds is m << e.
#[tactic(auto, unfolding(dshot_reply_spec::specs::Value::speed_value))]
fn speed_value(value: u16) -> Result<DshotReply, DshotReplyError>
    requires { value < 4096 }
    ensures { reply_answer result ≡ speed_value value }
{
    if value == ERPM_STOPPED {
        return Ok(DshotReply::Erpm { erpm_div100: 0 });
    }
    speed_of(u32::from(value % 512) << (value / 512))
}

// A typed reading, by half its type nibble.
#[tactic(auto, unfolding(dshot_reply_spec::specs::Value::reading_of))]
fn reading_of(kind: u16, data: u8) -> DshotReply
    requires { (0 < kind) × (kind < 8) }
    ensures { reading result ≡ reading_of kind «data» }
{
    match kind {
        1 => DshotReply::Temperature { celsius: data },
        2 => DshotReply::Voltage {
            quarter_volts: data,
        },
        3 => DshotReply::Current { amps: data },
        7 => DshotReply::StateEvent { value: data },
        _ => DshotReply::Debug {
            channel: (kind - 3) as u8,
            value: data,
        },
    }
}

impl DshotReply {
    // Interprets a checked 12-bit value. With `extended_telemetry` off every value is an eRPM period, except the EDT-enable acknowledgement.
    // With it on, a value whose type nibble is even and nonzero is a typed reading.
    #[tactic(auto, unfolding(dshot_reply_spec::specs::Value::reply_of))]
    pub fn from_value(value: u16, extended_telemetry: bool) -> Result<Self, DshotReplyError>
        ensures { reply_answer result ≡ reply_of value extended_telemetry }
    {
        let v = value % 4096;
        if !extended_telemetry {
            if v == EDT_ENABLE_ACK {
                return Ok(DshotReply::ExtendedTelemetryEnabled);
            }
            return speed_value(v);
        }
        let kind = v / 256;
        if kind % 2 == 1 || kind == 0 {
            return speed_value(v);
        }
        Ok(reading_of(v / 512, (v % 256) as u8))
    }
}

// Every layer at once: pin samples to a reply.
#[inline(always)]
#[tactic(auto, unfolding(dshot_reply_spec::specs::Reading::sampled_reply, dshot_reply_spec::specs::Reading::word_reply))]
pub fn decode_sampled_reply(
    samples: &[u16],
    pin_mask: u16,
    extended_telemetry: bool,
) -> Result<DshotReply, DshotReplyError>
    ensures { reply_answer result ≡ sampled_reply 3 samples.now pin_mask extended_telemetry }
{
    let transitions = reply_transitions(samples, pin_mask)?;
    let value = decode_gcr(transitions)?;
    DshotReply::from_value(value, extended_telemetry)
}
