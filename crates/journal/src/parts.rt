//! Calls that are handed parts of lists.
ghost use Rattle.std.specs.Prelude.{ℕ, ◌+◌, ◌<◌, List, MatchOption};
ghost use Rattle.journal.specs.Parts.{Fits, Within};
ghost use Rattle.journal.specs.Steps.{Carries, Tried};

use crate::calls::{Answer, Part, Reply};
use carry::{Label, Net, carry};
use std::ops::Range;

impl Part {
    // The places, if a list of so many has them.
    pub(crate) fn within(self, room: usize) -> Option<Range<usize>>
        ensures { MatchOption result (room < self.from + self.places) (Within self room) }
    {
        let end = self.from.checked_add(self.places)?;
        (end <= room).then_some(self.from..end)
    }
}

// Carries labels over the net, in parts of the two lists. A list is lent apart from the part of it: the
// lists are a desk's, and the parts a call's. A part of a list is lent where it is used, here and in the
// questions: a `&mut` that a method gives out would be longer to say.
pub(crate) fn carry_over<N: Net>(
    net: &N,
    labels: &mut [N::Label],
    k: Part,
    marks: &mut [u8],
    m: Part,
) -> Reply
    ensures { Tried {S = List N.Label × List ℕ} (Fits k labels.old × Fits m marks.old) (Carries (N.web net.now) N.Label.Label.kind N.Label.Label.meaning k m labels.old marks.old result labels.new marks.new) result (labels.old, marks.old) (labels.new, marks.new) }
{
    let k = k.within(labels.len())?;
    let m = m.within(marks.len())?;
    Some(carry(net, &mut labels[k], &mut marks[m]).map(Answer::Number))
}
