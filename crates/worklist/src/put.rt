//! Bytes put into a line that is handed over.
ghost use Rattle.std.specs.Prelude.{◌≡◌, ◌+◌, ◌<◌, ◌≤◌, [], ◌∷◌, length, decimal, MatchOption};
ghost use Rattle.worklist.specs.Written.{spaced};
ghost use Rattle.worklist.specs.AnswerLines.{said};
ghost use Rattle.worklist.specs.WriterSteps.{Put};

use itoa::Buffer;

// How many digits a number has. Not by writing it, since it is written again later.
fn width(n: u16) -> usize
    ensures { (result ≡ length (decimal n)) × (result ≤ 5) }
{
    if n < 10 { 1 } else { width(n / 10) + 1 }
}

// How many places a word, the numbers, each after one space, and byte 10 leave, where they fit.
pub(crate) fn places_left(word: &[u8], numbers: &[u16], places: usize) -> Option<usize>
    ensures { MatchOption result
        (places < length (said word.now numbers.now))
        (λ left. length (said word.now numbers.now) + left ≡ places) }
{
    let mut left = places.checked_sub(word.len())?;
    for n in numbers {
        left = left.checked_sub(width(*n) + 1)?;
    }
    left.checked_sub(1)
}

// Bytes, from a place on; says the place after them. The line is the caller's, so it has a place
// beside it where a `String` would grow. Expanded where it is called: most calls put few bytes, and how many is known there.
#[inline(always)]
pub(crate) fn put(out: &mut [u8], at: usize, bytes: &[u8]) -> usize
    requires { at + length bytes.now ≤ length out.old }
    ensures { Put out.old out.new at bytes.now result }
{
    let end = at + bytes.len();
    out[at..end].copy_from_slice(bytes);
    end
}

// One byte.
pub(crate) fn put_byte(out: &mut [u8], at: usize, b: u8) -> usize
    requires { at < length out.old }
    ensures { Put out.old out.new at (b ∷ []) result }
{
    out[at] = b;
    at + 1
}

// The digits of a number. One or two are put as they come, since to write and copy them would take longer.
fn put_number(out: &mut [u8], at: usize, n: u16) -> usize
    requires { at + length (decimal n) ≤ length out.old }
    ensures { Put out.old out.new at (decimal n) result }
{
    if n < 10 {
        return put_byte(out, at, b'0' + n as u8);
    }
    if n < 100 {
        let last = put_byte(out, at, b'0' + (n / 10) as u8);
        return put_byte(out, last, b'0' + (n % 10) as u8);
    }
    put(out, at, Buffer::new().format(n).as_bytes())
}

// Numbers, each after one space. Not by `Display`: no `fmt` promises to succeed where there is room.
pub(crate) fn put_numbers(out: &mut [u8], at: usize, numbers: &[u16]) -> usize
    requires { at + length (spaced numbers.now) ≤ length out.old }
    ensures { Put out.old out.new at (spaced numbers.now) result }
{
    let mut end = at;
    for n in numbers {
        end = put_byte(out, end, b' ');
        end = put_number(out, end, *n);
    }
    end
}
