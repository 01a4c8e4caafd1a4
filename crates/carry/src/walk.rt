//! A walk over the joins of a net, which labels each piece from its first item on.
ghost use Rattle.std.specs.Prelude.{◌≡◌, ℕ, ◌<◌, ◌≤◌, map, length, drop, slice_index};
ghost use Rattle.carry.specs.Walks.{Walking, Rests, Grown, Tried, Advanced, Spread};

use crate::counted::CountedNet;
use crate::label::Label;
use crate::marks::{DONE, ROOT, met_by, sides_done, way_in};
use crate::net::Net;

// The two lists are parameters of each method: one struct of both would have to say in every contract
// that it still holds the same two. What it leaves as it was, each method says of its own step.
impl<N: Net> CountedNet<'_, N> {
    /// Tries a side of `item`: enters the item that it is joined to, if that is not met yet. The
    /// answer is where the walk stands then.
    fn forward(&self, labels: &mut [N::Label], marks: &mut [u8], item: usize, side: usize) -> usize
        requires inside { item < self.now.count }
        requires labels { self.now.count ≤ length labels.old }
        requires marks { self.now.count ≤ length marks.old }
        ensures tried { Tried (N.web self.now.net.now) N.Label.Label.kind item side marks.old (map N.Label.Label.meaning labels.old) marks.new (map N.Label.Label.meaning labels.new) result }
        ensures rest { drop self.now.count labels.new ≡ drop self.now.count labels.old }
    {
        let Some(p) = self.net.join(item, side) else {
            return item;
        };
        if marks[p.item] != 0 {
            return item;
        }
        let here = labels[item];
        let step = self.net.step(item, side);
        labels[p.item] = here.combine(step);
        marks[p.item] = met_by(p.side);
        p.item
    }

    /// One move of a walk that stands at `item`: where it stands then, or nothing where the piece
    /// is done.
    fn advance(&self, labels: &mut [N::Label], marks: &mut [u8], item: usize) -> Option<usize>
        requires walking { Walking (N.web self.now.net.now) marks.old item }
        requires labels { self.now.count ≤ length labels.old }
        ensures advanced { Advanced (N.web self.now.net.now) N.Label.Label.kind marks.old (map N.Label.Label.meaning labels.old) marks.new (map N.Label.Label.meaning labels.new) result }
        ensures rest { drop self.now.count labels.new ≡ drop self.now.count labels.old }
    {
        let mark = marks[item];
        marks[item] = mark + DONE;
        let side = sides_done(mark);
        if side < self.net.side_count() {
            return Some(self.forward(labels, marks, item, side));
        }
        let back = way_in(mark)?;
        Some(self.net.join(item, back)?.item)
    }

    /// Labels and marks the piece of `root`, which is not met yet.
    fn piece(&self, labels: &mut [N::Label], marks: &mut [u8], root: usize)
        requires rests { Rests (N.web self.now.net.now) marks.old }
        requires labels { self.now.count ≤ length labels.old }
        requires root { (root < self.now.count) × (slice_index marks.old root ≡ 0) }
        ensures rests { Rests (N.web self.now.net.now) marks.new }
        ensures grown { Grown (N.web self.now.net.now) N.Label.Label.kind root marks.old (map N.Label.Label.meaning labels.old) marks.new (map N.Label.Label.meaning labels.new) }
        ensures past { drop self.now.count marks.new ≡ drop self.now.count marks.old }
        ensures rest { drop self.now.count labels.new ≡ drop self.now.count labels.old }
    {
        labels[root] = N::Label::neutral();
        marks[root] = ROOT;
        let mut item = root;
        while let Some(next) = self.advance(labels, marks, item) {
            item = next;
        }
    }

    /// Labels every piece, in the order of their first items, and counts them.
    pub(crate) fn spread(&self, labels: &mut [N::Label], marks: &mut [u8]) -> usize
        requires labels { self.now.count ≤ length labels.old }
        requires marks { self.now.count ≤ length marks.old }
        requires unmet { (i : ℕ) → i < self.now.count → slice_index marks.old i ≡ 0 }
        ensures spread { Spread (N.web self.now.net.now) N.Label.Label.kind (map N.Label.Label.meaning labels.new) result }
        ensures past { drop self.now.count marks.new ≡ drop self.now.count marks.old }
        ensures rest { drop self.now.count labels.new ≡ drop self.now.count labels.old }
    {
        let mut pieces = 0;
        // By number, since the walk of a piece writes the marks that are read here.
        for root in 0..self.count {
            if marks[root] == 0 {
                self.piece(labels, marks, root);
                pieces += 1;
            }
        }
        pieces
    }
}
