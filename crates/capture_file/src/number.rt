// Added: a number of a capture file. It is in groups of seven bits, lowest first, in the shortest form. Every group except the last has the top bit
// set.

ghost use Rattle.std.specs.Prelude.{◌≡◌, ◌+◌, ◌≤◌, length};
ghost use Rattle.capture_file.specs.Groups.{groups, read_number};
ghost use Rattle.capture_file.specs.FileSteps.{put, number_answer};

// Reads the number that bytes begin with, and the bytes after it. A group that follows another is not 0.
#[tactic(auto, using(crate::proofs::ReadLaws::number_cases))]
pub(crate) fn read_number(file: &[u8]) -> Option<(u16, &[u8])>
    ensures { number_answer result ≡ read_number file.now }
{
    let (low, rest) = file.split_first()?;
    let low = u16::from(*low);
    if low < 128 {
        return Some((low, rest));
    }
    let (middle, rest) = rest.split_first()?;
    let middle = u16::from(*middle);
    if middle == 0 {
        return None;
    }
    if middle < 128 {
        return Some((low - 128 + 128 * middle, rest));
    }
    let (high, rest) = rest.split_first()?;
    let high = u16::from(*high);
    // If the third group is 4 or more, or has the top bit set, the number is above 65535.
    if high == 0 || 3 < high {
        return None;
    }
    Some((low - 128 + 128 * (middle - 128 + 128 * high), rest))
}

// Writes a number at a place, and returns the place after it.
#[tactic(auto, using(crate::proofs::WriteLaws::put_cases))]
pub(crate) fn put_number(file: &mut [u8], at: usize, value: u16) -> usize
    requires { at + length (groups value) ≤ length file.old }
    ensures value { result ≡ at + length (groups value) }
    ensures file_after { file.new ≡ put at (groups value) file.old }
{
    if value < 128 {
        file[at] = value as u8;
        return at + 1;
    }
    file[at] = (128 + value % 128) as u8;
    if value < 16384 {
        file[at + 1] = (value / 128) as u8;
        return at + 2;
    }
    file[at + 1] = (128 + value / 128 % 128) as u8;
    file[at + 2] = (value / 16384) as u8;
    at + 3
}
