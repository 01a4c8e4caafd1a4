//! The index: entries that rise by key, in the first places of a borrowed list.
ghost use Rattle.std.specs.Prelude.{◌≡◌, ◌≤◌, [], length, take};
ghost use Rattle.index.specs.Entries.{Rising};

use crate::entry::Entry;
use crate::insert::insert;
use crate::key::Key;
use crate::keys::{Pair, Triple};
use refusal::Refusal;
use std::cmp::Ordering;

/// Entries that rise by key, in the first places of a borrowed list.
#[derive(Drop)]
pub struct Index<'a, K: Key> {
    // a caller's list and a count, since nothing here allocates
    places: &'a mut [Entry<K>],
    taken: usize,
    ghost within: { taken ≤ length places.now },
    ghost rising: { Rising K.order (take taken places.now) },
}

/// The index whose keys are vertex triples. Their order, which is derived, is `triple_order`.
pub type TriangleIndex<'a> = Index<'a, Triple>;

/// The index whose keys are vertex pairs. Their order, which is derived, is `pair_order`.
pub type EdgeIndex<'a> = Index<'a, Pair>;

impl<'a, K: Key> Index<'a, K> {
    ghost use Rattle.index.specs.Entries.{half_face_of};
    ghost use Rattle.index.specs.Held.{held, Put};
    ghost use Rattle.index.specs.Search.{Sought};

    /// An index with no entries over the places.
    pub fn over(places: &'a mut [Entry<K>]) -> Index<'a, K>
        ensures { held result ≡ record { entries = []; free = places.old } }
    {
        Index { places, taken: 0 }
    }

    /// How many entries there are.
    pub fn len(&self) -> usize
        ensures { result ≡ length (held self.now).entries }
    {
        self.taken
    }

    /// The entries, in order.
    pub fn entries(&self) -> &[Entry<K>]
        ensures { result.now ≡ (held self.now).entries }
    {
        &self.places[..self.taken]
    }

    // The place of the key, or else the place where it belongs. By halves in a loop, since the library's search goes
    // on where it has met the key.
    fn search(&self, key: K) -> Result<usize, usize>
        ensures { Sought K.order key (held self.now).entries result }
    {
        let entries = self.entries();
        let mut low = 0;
        let mut high = entries.len();
        while low < high {
            let middle = low + (high - low) / 2;
            match entries[middle].key.compare(key) {
                Ordering::Less => low = middle + 1,
                Ordering::Equal => return Ok(middle),
                Ordering::Greater => high = middle,
            }
        }
        Err(low)
    }

    /// The half-face beside the key, or none where no entry has the key.
    pub fn find(&self, key: K) -> Option<u16>
        ensures { result ≡ half_face_of K.order key (held self.now).entries }
    {
        let at = self.search(key).ok()?;
        Some(self.places[at].half_face)
    }

    /// Puts the entry into its place, in place of one of an equal key. A new key with no place free is
    /// refused with `ListTooShort`, and nothing is written.
    pub fn put(&mut self, entry: Entry<K>) -> Result<(), Refusal>
        ensures { Put K.order entry (held self.old) result (held self.new) }
    {
        match self.search(entry.key) {
            Ok(at) => self.places[at] = entry,
            Err(at) => {
                if self.taken == self.places.len() {
                    return Err(Refusal::ListTooShort);
                }
                insert(self.places, at, self.taken, entry);
                self.taken += 1;
            }
        }
        Ok(())
    }
}
