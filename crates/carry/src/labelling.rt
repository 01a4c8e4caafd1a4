//! Labels that agree over the joins of a net.
ghost use Rattle.std.specs.Prelude.{◌≡◌, ℕ, ◌<◌, ◌≤◌, ◌↔◌, IsTrue, map, length, drop, slice_index};
ghost use Rattle.carry.specs.Agreement.{AgreesOver, AgreesAt, Agrees};
ghost use Rattle.carry.specs.Carrying.{Carried};

use crate::counted::CountedNet;
use crate::label::Label;
use crate::marks::{MarkGuard, clear};
use crate::net::Net;
use refusal::Refusal;

impl<N: Net> CountedNet<'_, N> {
    /// Whether the labels agree over this side of `item`, if it is joined.
    fn agrees_over(&self, labels: &[N::Label], item: usize, side: usize) -> bool
        requires labels { self.now.count ≤ length labels.now }
        requires inside { item < self.now.count }
        ensures { IsTrue result ↔ AgreesOver (N.web self.now.net.now) N.Label.Label.kind (map N.Label.Label.meaning labels.now) item side }
    {
        let Some(p) = self.net.join(item, side) else {
            return true;
        };
        let here = labels[item];
        let there = labels[p.item];
        let led = here.combine(self.net.step(item, side));
        led.same(there)
    }

    /// Whether the labels agree over each joined side of `item`.
    fn agrees_at(&self, labels: &[N::Label], item: usize) -> bool
        requires labels { self.now.count ≤ length labels.now }
        requires inside { item < self.now.count }
        ensures { IsTrue result ↔ AgreesAt (N.web self.now.net.now) N.Label.Label.kind (map N.Label.Label.meaning labels.now) item }
    {
        (0..self.net.side_count()).all(|side| self.agrees_over(labels, item, side))
    }

    /// Whether the labels agree over each joined side of each item.
    fn agrees(&self, labels: &[N::Label]) -> bool
        requires { self.now.count ≤ length labels.now }
        ensures { IsTrue result ↔ Agrees (N.web self.now.net.now) N.Label.Label.kind (map N.Label.Label.meaning labels.now) }
    {
        (0..self.count).all(|item| self.agrees_at(labels, item))
    }
}

/// Makes the labels below `count` neutral. Apart from `clear`, which is over bytes: one line each.
fn blank<L: Label + Copy>(labels: &mut [L], count: usize)
    requires { count ≤ length labels.old }
    ensures neutral { (i : ℕ) → i < count → slice_index (map L.meaning labels.new) i ≡ L.kind.neutral }
    ensures rest { drop count labels.new ≡ drop count labels.old }
{
    let neutral = L::neutral();
    labels[..count].fill_with(|| neutral);
}

/// Labels the items of a net so that the labels agree over every joined side and the first item of
/// each piece is neutral, and answers how many pieces there are.
///
/// Refuses lists that are shorter than the net has items, and writes nothing then. Refuses a net
/// over which no labels agree, and leaves neutral labels then. What the lists hold before does not
/// matter, the marks below the item count are zero afterwards, and places beyond it stay untouched.
pub fn carry<N: Net>(net: &N, labels: &mut [N::Label], marks: &mut [u8]) -> Result<usize, Refusal>
    ensures { Carried (N.web net.now) N.Label.Label.kind N.Label.Label.meaning labels.old marks.old labels.new marks.new result }
{
    let count = net.count();
    if labels.len() < count || marks.len() < count {
        return Err(Refusal::ListTooShort);
    }
    let counted = CountedNet { net, count };
    clear(marks, count);
    let guard = MarkGuard { marks, count };
    let pieces = counted.spread(labels, guard.marks);
    if counted.agrees(labels) {
        return Ok(pieces);
    }
    blank(labels, count);
    Err(Refusal::NoLabelsAgree)
}
