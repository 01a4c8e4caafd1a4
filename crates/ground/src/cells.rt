//! The cell places of a ground with the number of them in use, and what holds of the cells. Each write leaves all of it standing.
ghost use Rattle.std.specs.Prelude.{◌≡◌, ℕ, ◌-◌, ◌<◌, ◌≤◌, [], ◌∷◌, ◌++◌, length, take, slice_set, slice_index_or};
ghost use Rattle.ground.specs.Searches.{Standing};

use crate::cell::Cell;
use crate::joined::Joined;
use crate::links::{lay_cell, lift_cell, turn_cell};
use crate::turn_net::TurnNet;
use carry::{Turn, carry};
use refusal::Refusal;

// The vertices of each cell are below 4,096 and differ, no two cells have the same four, and two
// half-faces are joined exactly if they have the same three. The first `count` places are in use; the
// list is the caller's and no heap is used, so that there are places behind them.
#[derive(Drop)]
pub struct Cells<'a> {
    pub(crate) records: &'a mut [Cell],
    pub(crate) count: usize,
    ghost few: { length records.now ≤ 1024 },
    ghost standing: { Standing records.now count },
}

// Each write says of itself, in a word, that the places stay as many.
impl<'a> Cells<'a> {
    ghost use Rattle.carry.specs.Turns.{turn_meaning, turn_kind};
    ghost use Rattle.carry.specs.Carrying.{Carried};
    ghost use Rattle.rules.specs.Rows.{turned_row};
    ghost use Rattle.rules.specs.Tests.{Fine};
    ghost use Rattle.rules.specs.Nets.{turned_by, TurnedMany};
    ghost use Rattle.rules.specs.NetTests.{turn_web};
    ghost use Rattle.ground.specs.Searches.{Met};
    ghost use Rattle.ground.specs.Grounds.{rows_of};
    ghost use Rattle.ground.specs.Nets.{turn_net_web};

    // The cells with their joins, for reading.
    pub(crate) fn joined(&self) -> Joined<'_>
        ensures records { result.records.now ≡ self.now.records.now }
        ensures many { result.count ≡ self.now.count }
    {
        Joined {
            records: self.records,
            count: self.count,
        }
    }

    // The net over which turns are carried.
    pub(crate) fn turn_net(&self) -> TurnNet<'_>
        ensures { turn_net_web result ≡ turn_web (rows_of self.now) }
    {
        TurnNet {
            cells: self.joined(),
        }
    }

    // Carries turns over the turn net.
    pub(crate) fn carry_turns(
        &self,
        labels: &mut [Turn],
        marks: &mut [u8],
    ) -> Result<usize, Refusal>
        ensures { Carried (turn_web (rows_of self.now)) turn_kind turn_meaning labels.old marks.old labels.new marks.new result }
    {
        carry(&self.turn_net(), labels, marks)
    }

    // One more cell, with its joins found already. Not yet a `Cell`: its joins are another call's answer.
    pub(crate) fn append(&mut self, corners: [u16; 4], joins: [Option<u16>; 4])
        requires room { self.old.count < length self.old.records.now }
        requires fine { Fine corners }
        requires met { Met (rows_of self.old) corners joins }
        ensures list { rows_of self.new ≡ rows_of self.old ++ corners ∷ [] }
        ensures places { length self.new.records.now ≡ length self.old.records.now }
    {
        let at = self.count;
        lay_cell(self.records, at, corners, joins);
        self.count = at + 1;
    }

    // One cell less: the last takes the number t.
    pub(crate) fn remove(&mut self, t: usize)
        requires { t < self.old.count }
        ensures list { rows_of self.new ≡ take (length (rows_of self.old) - 1) (slice_set (rows_of self.old) t (slice_index_or (rows_of self.old) (length (rows_of self.old) - 1) [])) }
        ensures places { length self.new.records.now ≡ length self.old.records.now }
    {
        let last = self.count - 1;
        lift_cell(self.records, last, t);
        self.count = last;
    }

    // Exchanges corners 2 and 3 of cell t.
    pub(crate) fn turn(&mut self, t: usize)
        requires { t < self.old.count }
        ensures list { rows_of self.new ≡ slice_set (rows_of self.old) t (turned_row (slice_index_or (rows_of self.old) t [])) }
        ensures places { length self.new.records.now ≡ length self.old.records.now }
        ensures same { self.new.count ≡ self.old.count }
    {
        turn_cell(self.records, t);
    }

    // Turns each cell whose label is 1, and answers how many these are.
    pub(crate) fn turn_labelled(&mut self, labels: &[Turn]) -> usize
        requires { self.old.count ≤ length labels.now }
        ensures list { rows_of self.new ≡ turned_by labels.now (rows_of self.old) }
        ensures places { length self.new.records.now ≡ length self.old.records.now }
        ensures many { TurnedMany (rows_of self.old) labels.now result }
    {
        let mut turned = 0;
        // counted on the way, since each turn writes the cells
        for (t, label) in labels[..self.count].iter().enumerate() {
            if *label == Turn::Turned {
                self.turn(t);
                turned += 1;
            }
        }
        turned
    }
}
