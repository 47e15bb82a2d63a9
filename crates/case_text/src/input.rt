// Reads a list from an input.

ghost use Rattle.std.specs.Prelude.{◌≡◌, length, take, IfOk, IfSome};
ghost use Rattle.std.specs.Io.{ReadsAtMost};

use std::io;
use std::io::Read;

// Reads until the buffer is full or the input ends, and answers how many bytes at its start were read. The buffer is lent, so the call asks for no memory.
pub fn read_full<R: Read>(input: &mut R, buffer: &mut [u8]) -> io::Result<usize>
    ensures read { IfOk result (λ n. IfSome (R.remaining input.old) (λ bytes. take n buffer.new ≡ take (length buffer.old) bytes)) }
    ensures in_bounds { ReadsAtMost result buffer.new }
{
    let mut done = 0;
    while done < buffer.len() {
        let more = input.read(&mut buffer[done..])?;
        if more == 0 {
            break;
        }
        done += more;
    }
    Ok(done)
}
