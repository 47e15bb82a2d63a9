// Makes the calls of a list on a bank, and prints what each gave: its answer, its orders, the bank's fields and the changed slots.
//
// The list comes on standard input, as text of at most 65535 bytes, one call a line. A line is unsigned decimal numbers with one space between them.
// The first is the code of the call; `calls.rt` says where each code is. For each line one line is printed, `CODE ANSWER | ORDERS | FIELDS | SLOTS`.
// A line that cannot be read ends the run. Before a list's first code 0, the bank has a timing of zeros.
#![tactic(auto)]

mod calls;
mod counts;
mod demands;
mod fields;
mod interrupts;
mod line;
mod looks;
mod numbers;
mod orders;
mod outcome;
mod part;
mod put;
mod replies;
mod services;
mod sets;
mod slots;

use crate::numbers::Numbers;
use crate::put::Out;
use case_text::input::read_full;
use dshot::DshotTiming;
use dshot_bank::DshotBank;
use std::io;
use std::io::{Stdout, Write};

const MOST_BYTES: usize = 65536;

fn run_list(to: Stdout, text: &[u8]) -> io::Result<()> {
    let mut out = Out::new(to);
    let mut bank = DshotBank::from_lanes(DshotTiming {
        arr: 0,
        zero_high: 0,
        one_high: 0,
        reply_sample_arr: 0,
    });
    let mut buffers = slots::zeros();
    let mut numbers = Numbers::new();
    for (number, line) in (1u64..).zip(text.split_inclusive(|byte| *byte == b'\n')) {
        let line = line.strip_suffix(b"\n").unwrap_or(line);
        let Some(after) = line::run(&mut out, line, &mut numbers, bank, &mut buffers)? else {
            writeln!(out, "unreadable line {number}")?;
            break;
        };
        bank = after;
    }
    out.finish()
}

fn main(rt: HostRuntime) -> io::Result<()> {
    let mut text = [0u8; MOST_BYTES];
    let length = read_full(&mut rt.stdin(), &mut text)?;
    if length == MOST_BYTES {
        return rt.println("list too long");
    }
    run_list(rt.stdout(), &text[..length])
}
