// The capture lister, added by document 01: reads one capture file and writes its line to standard output.
//
//   list_capture [FILE]
//
// Without FILE it reads standard input. If that is a terminal, it first says on standard error what it waits for.
//
// If there is more than one argument, it says so on standard error and writes no line. It does the same if the file cannot be opened or read, and then
// says why, as if the line cannot be written. Its exit status is always 0. So a script tests whether standard output is empty.
//
// If an input is longer than the buffer, it is cut at the buffer's end. It is refused with 17 (not a capture), as the whole input would be. The longest
// file that holds a capture has 12294 bytes, and the buffer has 65536.
#![tactic(auto)]

ghost use Rattle.std.specs.Prelude.{◌≡◌, length, take, IfOk, IfSome};
ghost use Rattle.std.specs.Io.{ReadsAtMost};

use capture_file::list::file_line;
use std::env::{Env, FillError};
use std::fs::File;
use std::io::{self, Error, IsTerminal, Read};
use std::str;

const MOST_BYTES: usize = 65536;

// The most bytes of a name that are taken.
const MOST_NAME: usize = 4096;

fn main(rt: HostRuntime) {
    if is_given(&rt, 2) {
        let _ = rt.eprintln("usage: list_capture [FILE]");
        return;
    }
    let mut path = [0u8; MOST_NAME];
    match rt.arg(1, &mut path) {
        Ok(length) => list_argument(&rt, &path[..length]),
        Err(FillError::TooLong) => say(&rt, "FILE", "File name too long"),
        Err(FillError::NotPresent) => list_standard_input(&rt),
    }
}

// Whether there is an argument of this number. The program's own name is number 0. `env::args` would refuse all arguments if one is not UTF-8.
fn is_given(rt: &impl Env, number: usize) -> bool {
    !matches!(rt.arg(number, &mut []), Err(FillError::NotPresent))
}

fn list_argument(rt: &HostRuntime, path: &[u8]) {
    match str::from_utf8(path) {
        Ok(name) => list_path(rt, name),
        Err(_) => say(rt, "FILE", "the name is not UTF-8"),
    }
}

fn list_path(rt: &HostRuntime, name: &str) {
    match File::open(rt, name) {
        Ok(mut file) => list(rt, name, &mut file),
        Err(error) => fail(rt, name, error),
    }
}

fn list_standard_input(rt: &HostRuntime) {
    let mut input = rt.stdin();
    if input.is_terminal() {
        let _ = rt.eprintln("list_capture: waiting for a capture file on standard input");
    }
    list(rt, "standard input", &mut input);
}

// Writes the line of an input, or says why it could not be read. The buffer is an array, so that a line can be written without asking for memory.
fn list<R: Read>(rt: &HostRuntime, name: &str, input: &mut R) {
    let mut buffer = [0u8; MOST_BYTES];
    match read_input(input, &mut buffer) {
        Ok(length) => write_line(rt, &buffer[..length]),
        Err(error) => fail(rt, name, error),
    }
}

// Reads until the buffer is full or the input ends, and answers how many bytes at its start were read.
fn read_input<R: Read>(input: &mut R, buffer: &mut [u8]) -> io::Result<usize>
    ensures read { IfOk result (λ n. IfSome (R.remaining input.old) (λ bytes. take n buffer.new ≡ take (length buffer.old) bytes)) }
    ensures in_bounds { ReadsAtMost result buffer.new }
{
    let mut done = 0;
    while done < buffer.len() {
        let more = input.read(&mut buffer[done..])?;
        if more == 0 {
            break;
        }
        done += more;
    }
    Ok(done)
}

fn write_line(rt: &HostRuntime, file: &[u8]) {
    let line = file_line(file);
    if let Err(error) = rt.write_all(&line.bytes[..line.length]) {
        fail(rt, "standard output", error);
    }
}

// Says on standard error what failed, and why. If memory is short, the system's number of the error stands after its text.
fn fail(rt: &HostRuntime, what: &str, error: Error) {
    match format!(in rt.alloc(); "{error}") {
        Ok(text) => say(rt, what, without_number(text.as_str())),
        Err(_) => {
            let _ = rt.eprintln(format_args!("{what}: {error}"));
        }
    }
}

// An error of the system is written as its text and then its number, as in `Is a directory (os error 21)`.
fn without_number(text: &str) -> &str {
    text.rsplit_once(" (os error ")
        .map_or(text, |(words, _)| words)
}

fn say(rt: &HostRuntime, what: &str, why: &str) {
    let _ = rt.eprintln(format_args!("{what}: {why}"));
}
