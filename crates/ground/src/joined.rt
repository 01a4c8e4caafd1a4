//! The cells with their joins, for reading: what the turn net goes over.
ghost use Rattle.std.specs.Prelude.{◌≡◌, ℕ, ◌/◌, ◌<◌, ◌≤◌, length};
ghost use Rattle.ground.specs.Searches.{Standing};

use crate::cell::Cell;
use crate::row::read;
use carry::Place;

/// The cells of a ground, borrowed for reading, with what holds of their joins.
// All places and the count of those in use: its facts are those of `Cells`, word for word.
#[derive(Clone, Copy)]
pub struct Joined<'c> {
    pub(crate) records: &'c [Cell],
    pub(crate) count: usize,
    ghost few: { length records.now ≤ 1024 },
    ghost standing: { Standing records.now count },
}

impl<'c> Joined<'c> {
    ghost use Rattle.rules.specs.NetTests.{read_at, partner, cell_joins};
    ghost use Rattle.ground.specs.Records.{join_at};
    ghost use Rattle.ground.specs.Nets.{joined_rows};

    // What half-face h reads.
    pub(crate) fn reading(&self, h: usize) -> [u16; 3]
        requires { h / 4 < self.now.count }
        ensures { result ≡ read_at (joined_rows self.now) h }
    {
        read(self.records[h / 4].corners, h % 4)
    }

    // The half-face that is stored as the opposite of h. The counts and the skin ask it of each half-face, so its
    // place is not tested again.
    pub(crate) fn opposite(&self, h: usize) -> Option<u16>
        requires { h / 4 < length self.now.records.now }
        ensures { result ≡ join_at self.now.records.now h }
    {
        self.records[h / 4].joins[h % 4]
    }

    // The half-face that half-face `side` of the cell `item` is joined to; out of range, none. An item and a
    // side, here and below, as nets are asked.
    pub(crate) fn partner(&self, item: usize, side: usize) -> Option<u16>
        ensures { result ≡ partner (joined_rows self.now) item side }
    {
        if item >= self.count || side >= 4 {
            return None;
        }
        self.opposite(4 * item + side)
    }

    // The same as an item and a side. Divided here, as each net does by its own number of sides.
    pub(crate) fn place(&self, item: usize, side: usize) -> Option<Place>
        ensures { result ≡ cell_joins (joined_rows self.now) item side }
    {
        let g = self.partner(item, side)? as usize;
        Some(Place {
            item: g / 4,
            side: g % 4,
        })
    }
}
