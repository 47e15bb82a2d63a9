// Counts the answers and prints what was found.

use std::io;

// The kinds of records with the calls that they replay, in the order in which they are printed.
const KINDS: [(u64, &str); 23] = [
    (1, "reply_transitions_for"),
    (2, "decode_gcr"),
    (3, "DshotReply::from_value"),
    (4, "reply_transitions"),
    (5, "decode_sampled_reply"),
    (6, "simulate::period_value"),
    (7, "simulate::simulate_reply"),
    (8, "DshotPacket::try_from_value"),
    (9, "DshotPacket::from_value"),
    (10, "DshotPacket::from_value_bidirectional"),
    (11, "four_motor_packets"),
    (12, "four_motor_bidirectional_packets"),
    (13, "DshotTiming::from_clocks"),
    (14, "encode_packet"),
    (15, "encode_compare_sequence"),
    (16, "throttle_to_dshot"),
    (17, "throttles_to_dshot"),
    (18, "DshotCommandSequence::next_value"),
    (22, "DshotCommandSequence::next_value, any run"),
    (19, "command_lease_expired"),
    (20, "read::read_packet"),
    (21, "read::read_compare_sequence"),
    (23, "constants of dshot.rs"),
];

// How many answers were compared, and how many differ.
#[derive(Clone, Copy, Default)]
struct Count {
    compared: u64,
    differing: u64,
}

impl Count {
    fn add(&mut self, is_same: bool) {
        self.compared = self.compared.saturating_add(1);
        self.differing = self.differing.saturating_add(u64::from(!is_same));
    }
}

// A kind of records, the call that it replays, and what was counted of it.
#[derive(Clone, Copy)]
struct Kind {
    number: u64,
    name: &'static str,
    count: Count,
}

// The kinds, and a count of all.
#[derive(Clone, Copy)]
pub struct Report {
    kinds: [Kind; 23],
    all: Count,
}

impl Report {
    pub(crate) fn new() -> Self {
        Report {
            kinds: KINDS.map(|(number, name)| Kind {
                number,
                name,
                count: Count::default(),
            }),
            all: Count::default(),
        }
    }

    // Counts an answer of a kind.
    pub(crate) fn count(&mut self, kind: u64, is_same: bool) {
        for counted in &mut self.kinds {
            if counted.number == kind {
                counted.count.add(is_same);
            }
        }
        self.all.add(is_same);
    }

    // Prints how many answers were compared and how many differ, of each kind of call and of all.
    pub(crate) fn print(&self, rt: &impl Print) -> io::Result<()> {
        for Kind { name, count, .. } in &self.kinds {
            println!(rt;
                "{name}: {} answers, {} differ",
                count.compared, count.differing
            )?;
        }
        println!(rt;
            "{} answers, {} differ",
            self.all.compared, self.all.differing
        )
    }
}
