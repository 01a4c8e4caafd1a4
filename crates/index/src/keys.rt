//! The keys of edges and of triangles.
ghost use Rattle.index.specs.Keys.{pair_order, triple_order};
ghost use Rattle.index.specs.KeyLemmas.{pair_total, triple_total};

use crate::key::Key;
use std::cmp::Ordering;

/// Two vertices: the key of an edge. Pairs go by the first vertex, then by the second.
#[derive(Clone, Copy, PartialEq, Eq, PartialOrd, Ord, Debug)]
pub struct Pair {
    pub first: u16,
    pub second: u16,
}

impl Key for Pair {
    ghost order = { pair_order };

    ghost total = { pair_total };

    fn compare(self, other: Pair) -> Ordering {
        self.cmp(&other)
    }
}

/// Three vertices: the key of a triangle. Triples go by the first vertex, then by the second, then by
/// the third.
#[derive(Clone, Copy, PartialEq, Eq, PartialOrd, Ord, Debug)]
pub struct Triple {
    pub first: u16,
    pub second: u16,
    pub third: u16,
}

impl Key for Triple {
    ghost order = { triple_order };

    ghost total = { triple_total };

    fn compare(self, other: Triple) -> Ordering {
        self.cmp(&other)
    }
}
