//! Entries that rise, handed over as an index.
ghost use Rattle.std.specs.Prelude.{[]};
ghost use Rattle.index.specs.Entries.{Rising};
ghost use Rattle.index.specs.Held.{held};
ghost use Rattle.indexes.specs.Gathered.{HandedOver};

use index::{Entry, Index, Key};
use refusal::Refusal;

// The index of the entries over the places, and how many there are. If they do not fit, they are
// refused, and the index is empty.
pub(crate) fn hand_over<'p, K: Key>(
    entries: &[Entry<K>],
    places: &'p mut [Entry<K>],
) -> (Index<'p, K>, Result<usize, Refusal>)
    requires { Rising K.order entries.now }
    ensures { HandedOver entries.now (record { entries = []; free = places.old }) result.1 (held result.0) }
{
    let fits = entries.len() <= places.len();
    let mut index = Index::over(places);
    if !fits {
        return (index, Err(Refusal::ListTooShort));
    }
    for entry in entries {
        index.put(*entry).unwrap();
    }
    (index, Ok(entries.len()))
}
