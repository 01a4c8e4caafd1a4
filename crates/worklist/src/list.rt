//! A whole work list: checked first, and then read order by order.
ghost use Rattle.std.specs.Prelude.{◌≡◌, ◌<◌, List, [], ◌∷◌, length, IfSome, MatchOption};
ghost use Rattle.worklist.specs.Lists.{Begins, NoneBegins, Checked, Once, Next, NoneNext, ToRun};
ghost use Rattle.worklist.specs.ReaderSteps.{Judged};

use crate::cut::cut_line;
use crate::fault::Fault;
use crate::line::read_line;
use crate::order::Order;
use refusal::Refusal;

// The most bytes that a work list may have.
const MOST_BYTES: usize = 65536;

// The order that the first line writes, and what follows that line.
fn next_order(text: &[u8]) -> Option<(Order, &[u8])>
    ensures { MatchOption result (NoneBegins text.now) (λ p. Begins text.now p.0 p.1.now) }
{
    let (line, rest) = cut_line(text)?;
    Some((read_line(line)?, rest))
}

// What follows the line at the front of `rest`, with `before` lines before it: an order to run.
// Nothing, where that line closes the list as it should.
fn judge(rest: &[u8], before: u16) -> Result<Option<&[u8]>, Refusal>
    ensures { Judged before rest.now result }
{
    if rest.is_empty() {
        return Err(Refusal::WronglyClosed);
    }
    let (order, more) = next_order(rest).ok_or(Refusal::LineMalformed)?;
    match order {
        Order::Close(n) if n == before && more.is_empty() => Ok(None),
        Order::Close(_) => Err(Refusal::WronglyClosed),
        _ => Ok(Some(more)),
    }
}

/// How many orders a work list has before the line that closes it, or its first faulty line.
pub fn check_list(text: &[u8]) -> Result<u16, Fault>
    ensures told { Checked text.now result }
    ensures once { Once text.now }
{
    if text.len() > MOST_BYTES {
        return Err(Fault {
            refusal: Refusal::TextTooLong,
            line: 0,
        });
    }
    // counted as they are read, since no list of the lines is made
    let mut before = 0;
    let mut rest = text;
    loop {
        let line = before + 1;
        let Some(more) = judge(rest, before).map_err(|refusal| Fault { refusal, line })? else {
            return Ok(before);
        };
        before = line;
        rest = more;
    }
}

/// The next order of a checked list, and what follows its line; none at the line that closes the list.
pub fn next_to_run(rest: &[u8]) -> Option<(Order, &[u8])>
    ensures first { MatchOption result (NoneNext rest.now) (λ p. Next rest.now p.0 p.1.now) }
    ensures inturn { (os : List Order) → ToRun rest.now os → MatchOption result (os ≡ []) (λ p. (more : List Order) × (os ≡ p.0 ∷ more) × ToRun p.1.now more) }
    ensures shorter { IfSome result (λ p. length p.1.now < length rest.now) }
{
    let (order, more) = next_order(rest)?;
    match order {
        Order::Close(_) => None,
        _ => Some((order, more)),
    }
}
