//! The lines of output: what came of an order, or what is wrong with a list.
ghost use Rattle.std.specs.Prelude.{Some};
ghost use Rattle.worklist.specs.AnswerLines.{said, shown, bytes_of, Lined};

use crate::fault::Fault;
use crate::put::{places_left, put, put_byte, put_numbers};
use refusal::Refusal;
use std::fmt;

/// What a line of output says.
// Three kinds of line: a Result within a Result would not say which is which.
#[derive(Clone, Copy)]
pub enum Answer<'a> {
    /// `ok`: the order is accepted, with these numbers
    Ok(&'a [u16]),
    /// `no`: the order is refused
    No(Refusal),
    /// `bad`: the list is turned down, at its first faulty line
    Bad(Fault),
}

/// The answer's line, without its byte 10.
impl fmt::Display for Answer<'_> {
    ghost output = { λ a. Some (shown a) };

    fn fmt<W: fmt::Write>(&self, f: &mut fmt::Formatter<W>) -> fmt::Result {
        match self {
            Answer::Ok(numbers) => {
                write!(f, "ok")?;
                for n in *numbers {
                    write!(f, " {n}")?;
                }
                Ok(())
            }
            Answer::No(refusal) => write!(f, "no {}", refusal.number()),
            Answer::Bad(fault) => write!(f, "bad {} {}", fault.refusal.number(), fault.line),
        }
    }
}

// A word, the numbers, each after one space, and byte 10. It is not written by `Display`, since no
// `fmt` promises to succeed where there is room. Expanded for each word, as `put` is.
#[inline(always)]
fn put_line(word: &[u8], numbers: &[u16], out: &mut [u8]) -> Result<usize, Refusal>
    ensures { Lined (said word.now numbers.now) out.old out.new result }
{
    places_left(word, numbers, out.len()).ok_or(Refusal::ListTooShort)?;
    let end = put(out, 0, word);
    let end = put_numbers(out, end, numbers);
    Ok(put_byte(out, end, b'\n'))
}

impl Answer<'_> {
    /// Writes the answer's line into the first places of `out`, and says how many bytes it has.
    pub fn write(self, out: &mut [u8]) -> Result<usize, Refusal>
        ensures { Lined (bytes_of self.entry) out.old out.new result }
    {
        match self {
            Answer::Ok(numbers) => put_line(b"ok", numbers, out),
            Answer::No(refusal) => put_line(b"no", &[refusal.number()], out),
            Answer::Bad(fault) => put_line(b"bad", &[fault.refusal.number(), fault.line], out),
        }
    }
}
