//! Items with sides, of which some are joined to one another.
ghost use Rattle.std.specs.Prelude.{◌≡◌};
ghost use Rattle.carry.specs.Webs.{Web, Sound, StepsMeant};

use crate::label::Label;

/// A side of an item.
#[derive(Clone, Copy, PartialEq, Eq, Debug)]
pub struct Place {
    pub item: usize,
    pub side: usize,
}

/// Items, numbered from 0, and their joined sides, each with a step label.
pub trait Net {
    type Label: Label + Copy;

    /// The number of sides of each item, 1 to 4.
    const SIDES: usize;

    /// What the net means.
    ghost web: { Self → Web };

    /// The number of sides of each item, which is `SIDES`: a clause cannot name a trait's constant
    /// yet where an implementation has a lifetime, as most nets have.
    fn side_count(&self) -> usize
        ensures { result ≡ (web self.now).sides };

    /// The number of items. Here an implementation also shows that its web is sound, which is to
    /// say that it is in bounds and its joins lead back, and that every step is a label.
    fn count(&self) -> usize
        ensures items { result ≡ (web self.now).items }
        ensures sound { Sound (web self.now) Self.Label.Label.kind }
        ensures meant { StepsMeant (web self.now) Self.Label.Label.meaning };

    // An item and a side and no `Place`, here and below: who asks goes over the sides of an item.
    /// The side that a side is joined to. An open side has none, nor has one out of range.
    fn join(&self, item: usize, side: usize) -> Option<Place>
        ensures { result ≡ (web self.now).joins item side };

    /// What leads from the label of the item to that of the item that the side is joined to:
    /// neutral where the side is open or out of range.
    fn step(&self, item: usize, side: usize) -> Self::Label
        ensures { Self.Label.Label.meaning result ≡ (web self.now).steps item side };
}
