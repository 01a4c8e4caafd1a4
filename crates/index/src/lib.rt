//! An index over a borrowed list of places: entries that rise by key, with a half-face beside each key.
//! One container serves every kind of key with a total order; the indexes of triples and of pairs are
//! two cases of it.
#![tactic(auto)]

mod container;
mod entry;
mod insert;
mod key;
mod keys;

pub use container::{EdgeIndex, Index, TriangleIndex};
pub use entry::Entry;
pub use key::Key;
pub use keys::{Pair, Triple};
