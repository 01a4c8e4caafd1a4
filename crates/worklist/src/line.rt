//! One line of a work list, read as an order.
ghost use Rattle.std.specs.Prelude.{◌≡◌, ◌∷◌, length, MatchOption};
ghost use Rattle.worklist.specs.ReaderSteps.{Says, Leads, NoneLeads, NoNumbers, Numbers};

use crate::cut::word;
use crate::number::number;
use crate::order::Order;

// The number after a space at the front, and what follows it.
fn next(s: &[u8]) -> Option<(u16, &[u8])>
    ensures { MatchOption result (NoneLeads s.now) (λ p. Leads s.now p.0 p.1.now) }
{
    let [b' ', rest @ ..] = s else {
        return None;
    };
    let (first, more) = word(rest);
    Some((number(first)?, more))
}

// So many numbers, each after a space, and no more.
fn numbers<const N: usize>(s: &[u8]) -> Option<[u16; N]>
    ensures { MatchOption result (NoNumbers N s.now) (λ ns. Numbers s.now ns × (length ns ≡ N)) }
{
    let mut found = [0; N];
    let mut rest = s;
    // By index: of an array of its own that `iter_mut` goes over a proof knows nothing.
    for i in 0..N {
        let (n, more) = next(rest)?;
        found[i] = n;
        rest = more;
    }
    rest.is_empty().then_some(found)
}

// The order of a letter and what follows it in the line.
fn order(letter: u8, rest: &[u8]) -> Option<Order>
    ensures { Says (letter ∷ rest.now) result }
{
    match letter {
        b'L' => {
            let [a, b, c, d] = numbers::<4>(rest)?;
            Some(Order::Lay(a, b, c, d))
        }
        b'X' => {
            let [t] = numbers::<1>(rest)?;
            Some(Order::Lift(t))
        }
        b'T' => {
            let [t] = numbers::<1>(rest)?;
            Some(Order::Turn(t))
        }
        b'O' => {
            let [] = numbers::<0>(rest)?;
            Some(Order::Orient)
        }
        b'K' => {
            let [v] = numbers::<1>(rest)?;
            Some(Order::CellsAtVertex(v))
        }
        b'E' => {
            let [v, w] = numbers::<2>(rest)?;
            Some(Order::CellsAtEdge(v, w))
        }
        b'S' => {
            let [] = numbers::<0>(rest)?;
            Some(Order::Counts)
        }
        b'Z' => {
            let [n] = numbers::<1>(rest)?;
            Some(Order::Close(n))
        }
        _ => None,
    }
}

// The order that a line writes, if it writes one. No `TryFrom`, which would be one more public call
// and need an error that says nothing.
pub(crate) fn read_line(s: &[u8]) -> Option<Order>
    ensures { Says s.now result }
{
    let (letter, rest) = s.split_first()?;
    order(*letter, rest)
}
