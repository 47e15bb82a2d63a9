// Reads the numbers of a line.

ghost use Rattle.std.specs.Prelude.{◌≡◌, ◌≤◌, ℕ, drop, map, length, List, [], Some, None, IfSome, IfNone, ◌⊎◌};
ghost use Rattle.std.specs.Iterator.{IsFinite, Drains, YieldsThen};
ghost use denote.Ref.{Bor};
ghost use Rattle.std.specs.Option.{option_map};
ghost use Rattle.case_text.specs.Numbers.{digit_of, number_at, whole_number, numbers_within, words_of, flag_of};

use arrayvec::ArrayVec;

// The bytes from a place on. Past the end there are none.
fn rest(text: &[u8], from: usize) -> &[u8]
    ensures { result.now ≡ drop from text.now }
{
    text.get(from..).unwrap_or(&[])
}

fn digit(byte: u8) -> Option<u64>
    ensures { result ≡ digit_of byte }
{
    match byte {
        b'0'..=b'9' => Some(u64::from(byte - b'0')),
        _ => None,
    }
}

// Reads the digits from `from` on, at least one: the number, and the place after it. If the number does not fit 64 bits, there is none.
#[tactic(auto, using(crate::proofs::NumberLaws::steps))]
pub fn read_number(line: &[u8], from: usize) -> Option<(u64, usize)>
    ensures { result ≡ number_at line.now from }
{
    let mut value: u64 = 0;
    let mut end = from;
    for byte in rest(line, from) {
        let Some(digit) = digit(*byte) else {
            break;
        };
        value = value.checked_mul(10)?.checked_add(digit)?;
        end += 1;
    }
    (from != end).then_some((value, end))
}

// The number that a word is, if it is digits alone.
pub fn whole_number(word: &[u8]) -> Option<u64>
    ensures { result ≡ whole_number word.now }
{
    let (value, end) = read_number(word, 0)?;
    (end == word.len()).then_some(value)
}

// Reads each word as a number. If one is no number, or there are more than N, the answer is none.
fn read_each<'a, const N: usize, I: Iterator<Item = &'a [u8]>>(
    words: I,
    numbers: &mut ArrayVec<u64, N>,
) -> Option<()>
    requires can { I.can_next words }
    requires ends { IsFinite (I.remaining words) }
    ensures read { IfSome result (λ _. (ws : List (Bor (List ℕ))) × Drains I.next_gives words ws × (map (λ w. whole_number w.now) ws ≡ map Some numbers.new.items)) }
    ensures few { IfSome result (λ _. length numbers.new.items ≤ N) }
    ensures refused { IfNone result ((ws : List (Bor (List ℕ))) × (w : Bor (List ℕ)) × (rest : I) × YieldsThen I.next_gives words ws (Some w) rest × ((length ws ≡ N) ⊎ (whole_number w.now ≡ None))) }
{
    numbers.clear();
    for word in words {
        numbers.try_push(whole_number(word)?).ok()?;
    }
    Some(())
}

// How many spaces stand between two words. With `Any`, there may be some before the first word and behind the last, too.
#[derive(Clone, Copy, Debug, PartialEq, Eq)]
pub enum Spaces {
    One,
    Any,
}

// Reads the words of a line as numbers.
fn read_parts<const N: usize>(
    line: &[u8],
    spaces: Spaces,
    numbers: &mut ArrayVec<u64, N>,
) -> Option<()>
    ensures { option_map (λ _. numbers.new.items) result ≡ numbers_within N (words_of spaces line.now) }
{
    let parts = line.split(|byte| *byte == b' ');
    match spaces {
        Spaces::One => read_each(parts, numbers),
        Spaces::Any => read_each(parts.filter(|part| !part.is_empty()), numbers),
    }
}

// Reads the words of a line as numbers, in place of those that are there. If a word is no number, or there are more than N, the answer is none, and no
// number is left. The numbers are lent, because handing them on by value copies room for all N at each step.
pub fn read_words<const N: usize>(
    line: &[u8],
    spaces: Spaces,
    numbers: &mut ArrayVec<u64, N>,
) -> Option<()>
    ensures value { option_map (λ _. numbers.new.items) result ≡ numbers_within N (words_of spaces line.now) }
    ensures none_left { IfNone result (numbers.new.items ≡ []) }
{
    let read = read_parts(line, spaces, numbers);
    if read.is_none() {
        numbers.clear();
    }
    read
}

// A flag is 0 or 1.
pub fn flag(number: u64) -> Option<bool>
    ensures { result ≡ flag_of number }
{
    match number {
        0 => Some(false),
        1 => Some(true),
        _ => None,
    }
}
