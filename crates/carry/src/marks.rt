//! The marks of a walk, which are zero again once it is let go.
//!
//! The walk keeps no list of its own: callers hand over a byte for each item, its mark, which says
//! where the walk is with it. A mark is 0 at an item that is not met yet. Else it is `DONE` for each
//! side that is done with, and one more than the side by which the walk came in, or `ROOT`.
ghost use Rattle.std.specs.Prelude.{◌≡◌, ◌≢◌, ◌+◌, ◌/◌, ◌%◌, ◌<◌, ◌≤◌, MatchOption, length};
ghost use Rattle.carry.specs.Lists.{Cleared};

/// What the mark of an item that a piece starts at has in place of a side.
pub(crate) const ROOT: u8 = 5;

/// What a side that is done with adds to a mark.
pub(crate) const DONE: u8 = 8;

/// A guard over the marks of a walk: however it ends, those below `count` become zero.
///
/// It holds the whole list and `count` beside it, since what a guard over a part of a list leaves
/// there is not known to the proof once the guard is gone.
pub(crate) struct MarkGuard<'a> {
    pub(crate) marks: &'a mut [u8],
    pub(crate) count: usize,
}

impl Drop for MarkGuard<'_> {
    fn drop(self)
        requires { self.count ≤ length self.marks.now }
        ensures { Cleared self.entry.count self.entry.marks.now self.exit.0.now }
    {
        let MarkGuard { marks, count } = self;
        clear(marks, count);
    }
}

/// Makes the marks below `count` zero.
pub(crate) fn clear(marks: &mut [u8], count: usize)
    requires { count ≤ length marks.old }
    ensures { Cleared count marks.old marks.new }
{
    marks[..count].fill(0);
}

/// The mark of an item that the walk has come to by this side.
pub(crate) fn met_by(side: usize) -> u8
    requires { side < 4 }
    ensures { result ≡ 1 + side }
{
    1 + side as u8
}

/// How many sides of an item are done with, by its mark.
pub(crate) fn sides_done(mark: u8) -> usize
    ensures { result ≡ mark / 8 }
{
    (mark / DONE) as usize
}

/// The side by which the walk came to an item, by its mark, or nothing where a piece starts.
pub(crate) fn way_in(mark: u8) -> Option<usize>
    requires { 0 < mark % 8 }
    ensures { MatchOption result (mark % 8 ≡ 5) (λ side. (side + 1 ≡ mark % 8) × (mark % 8 ≢ 5)) }
{
    match mark % DONE {
        ROOT => None,
        met => Some(met as usize - 1),
    }
}
