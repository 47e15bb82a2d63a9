// Replays stored answers of the calls of dshot_reply and dshot. It makes each call again, and reports the records whose answer differs.
//
// The list of records comes on standard input, as text of at most 131071 bytes. A line holds one record or none. A record is unsigned decimal numbers
// with spaces between them. Its first number is the kind of call; `records.rt` says where each kind is. `#` starts a comment, up to the end of its
// line. A record that cannot be read ends the run. The stored list has records that are wrong on purpose, at least one for each number that is
// compared. So if a comparison is left out, it shows in what is printed.
#![tactic(auto)]

mod commands;
mod frames;
mod numbers;
mod records;
mod report;
mod sequences;

use crate::numbers::Numbers;
use crate::report::Report;
use case_text::input::read_full;
use std::io;

// Room for a list, and for one byte more. If a list fills it, it may be cut off.
const MOST_BYTES: usize = 131072;

// Replays the record of a line, if it has one. Answers whether nothing differs, if the record can be read.
fn replay_line(line: &[u8], numbers: &mut Numbers, report: &mut Report) -> Option<bool> {
    numbers::read_line(line, numbers)?;
    let [kind, fields @ ..] = numbers.as_slice() else {
        return Some(true);
    };
    let is_same = records::replay(*kind, fields)?;
    report.count(*kind, is_same);
    Some(is_same)
}

fn replay_list(rt: &impl Print, text: &[u8]) -> io::Result<()> {
    let mut report = Report::new();
    let mut numbers = Numbers::new();
    for (number, line) in (1u64..).zip(text.split_inclusive(|byte| *byte == b'\n')) {
        let line = line.strip_suffix(b"\n").unwrap_or(line);
        match replay_line(line, &mut numbers, &mut report) {
            Some(true) => {}
            Some(false) => println!(rt; "differs: line {number}")?,
            None => return println!(rt; "unreadable: line {number}"),
        }
    }
    report.print(rt)
}

fn main(rt: HostRuntime) -> io::Result<()> {
    let mut text = [0u8; MOST_BYTES];
    let length = read_full(&mut rt.stdin(), &mut text)?;
    if length == MOST_BYTES {
        return rt.println("list too long");
    }
    replay_list(&rt, &text[..length])
}
