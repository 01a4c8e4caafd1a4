//! Vertices put in rising order, as keys have them.
ghost use Rattle.std.specs.Prelude.{◌≡◌, ◌<◌, ◌⊎◌, ◌≢◌};
ghost use Rattle.indexes.specs.Faces.{Sorts};

use index::{Pair, Triple};

// Two vertices that differ, in rising order.
pub(crate) fn rising_pair(a: u16, b: u16) -> Pair
    requires { a ≢ b }
    ensures rising { result.first < result.second }
    ensures both { ((result.first ≡ a) × (result.second ≡ b)) ⊎ ((result.first ≡ b) × (result.second ≡ a)) }
{
    Pair {
        first: a.min(b),
        second: a.max(b),
    }
}

// Three vertices that differ, in rising order.
pub(crate) fn rising_triple(a: u16, b: u16, c: u16) -> Triple
    requires { (a ≢ b) × (b ≢ c) × (a ≢ c) }
    ensures { Sorts (record { p = a; q = b; r = c }) result }
{
    // not by a sort, which takes its time even for three
    Triple {
        first: a.min(b).min(c),
        second: a.min(b).max(c.min(a.max(b))),
        third: a.max(b).max(c),
    }
}
