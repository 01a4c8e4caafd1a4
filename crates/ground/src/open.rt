//! What an open ground allows: lay, lift, turn, orient and seal.
ghost use Rattle.std.specs.Prelude.{◌≡◌, ◌+◌, min, length};
ghost use Rattle.rules.specs.Rows.{row};
ghost use Rattle.rules.specs.PlainList.{empty, Lays, Lifts, Turns};
ghost use Rattle.rules.specs.Orients.{Orients, RefusedExactly, OpposedAfter, OrientsOnce};
ghost use Rattle.ground.specs.Grounds.{plain, plain_sealed, places_of, Kept};

use crate::cell::Cell;
use crate::cells::Cells;
use crate::numbers::numbered;
use crate::row::{repeated, too_high};
use crate::stage::{Open, Sealed};
use carry::Turn;
use refusal::Refusal;

/// An open ground without cells, over the first 1,024 places, or all if there are fewer.
pub fn make<'a>(places: &'a mut [Cell]) -> Open<'a>
    ensures { plain result ≡ empty (min (length places.old) 1024) }
{
    let room = places.len().min(1024);
    let records = &mut places[..room];
    Open {
        cells: Cells { records, count: 0 },
        changes: 0,
    }
}

// One more accepted change; the count stops at 65,535.
fn one_more(changes: u16) -> u16
    ensures { result ≡ min (changes + 1) 65535 }
{
    changes.saturating_add(1)
}

// Each change says of itself, in a word, what it keeps of the places.
impl<'a> Open<'a> {
    /// Appends the cell a b c d and answers its number.
    // Four numbers and no array, as those who call it and the calls of a journal have them.
    pub fn lay(&mut self, a: u16, b: u16, c: u16, d: u16) -> Result<u16, Refusal>
        ensures lays { Lays (plain self.old) (row a b c d) result (plain self.new) }
        ensures kept { Kept result (places_of self.old) (places_of self.new) }
    {
        let corners = [a, b, c, d];
        let count = self.cells.count;
        if too_high(corners) {
            return Err(Refusal::VertexTooHigh);
        }
        if repeated(corners) {
            return Err(Refusal::VerticesEqual);
        }
        if count >= self.cells.records.len() {
            return Err(Refusal::NoFreePlace);
        }
        let joins = self.cells.joined().partners(corners)?;
        self.cells.append(corners, joins);
        self.changes = one_more(self.changes);
        Ok(count as u16)
    }

    /// Removes cell t; the last cell takes its number.
    pub fn lift(&mut self, t: u16) -> Result<(), Refusal>
        ensures lifts { Lifts (plain self.old) t result (plain self.new) }
        ensures kept { Kept result (places_of self.old) (places_of self.new) }
    {
        let t = numbered(t, self.cells.count)?;
        self.cells.remove(t);
        self.changes = one_more(self.changes);
        Ok(())
    }

    /// Exchanges corners 2 and 3 of cell t.
    pub fn turn(&mut self, t: u16) -> Result<(), Refusal>
        ensures turns { Turns (plain self.old) t result (plain self.new) }
        ensures kept { Kept result (places_of self.old) (places_of self.new) }
    {
        let t = numbered(t, self.cells.count)?;
        self.cells.turn(t);
        self.changes = one_more(self.changes);
        Ok(())
    }

    /// Turns cells so that all joined triangles read opposite ways, and answers how many it turned:
    /// those that the turns carried over the turn net label 1. One mark byte for each cell serves the
    /// walk.
    ///
    /// Refuses lists that are shorter than there are cells, and writes nothing then. Refuses a ground
    /// where no choice of turned cells works, and leaves straight labels and zero marks below the
    /// number of cells then.
    pub fn orient(&mut self, labels: &mut [Turn], marks: &mut [u8]) -> Result<usize, Refusal>
        ensures orients { Orients (plain self.old) labels.old marks.old result (plain self.new) labels.new marks.new }
        ensures kept { Kept result (places_of self.old) (places_of self.new) }
        ensures exactly { RefusedExactly (plain self.old) labels.old marks.old result }
        ensures opposed { OpposedAfter result (plain self.new) }
        ensures once { OrientsOnce (plain self.old) labels.old marks.old result (plain self.new) }
    {
        let _pieces = self.cells.carry_turns(labels, marks)?;
        let turned = self.cells.turn_labelled(labels);
        self.changes = one_more(self.changes);
        Ok(turned)
    }

    /// The same ground, sealed, with its cells and triangles counted.
    pub fn seal(self) -> Sealed<'a>
        ensures { plain_sealed result ≡ plain self.entry }
    {
        let counts = self.cells.joined().counts();
        let Open { cells, changes } = self;
        Sealed {
            cells,
            changes,
            counts,
        }
    }
}
