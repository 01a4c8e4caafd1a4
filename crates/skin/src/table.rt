//! The table of the skin net.
ghost use Rattle.std.specs.Prelude.{◌≡◌, ℕ, ◌*◌, ◌<◌, ◌≤◌};
ghost use Rattle.skin.specs.Sides.{mate_at};

use crate::side::Side;

/// The net over which labels of the skin triangles are carried: an item for each, by rising
/// half-face number, and its three edge places as sides, joined where they are mates.
///
/// It has a table of its own, with room for the skin of any ground, and borrows nothing.
// The libraries allocate nothing, so the table has places for 4,096 items and a count of those in use.
#[derive(Drop)]
pub struct SkinNet {
    pub(crate) count: usize,
    pub(crate) sides: [Side; 12288],
    ghost few: { count ≤ 4096 },
    ghost near: { (k : ℕ) → k < 3 * count → mate_at sides k < 3 * count },
    ghost back: { (k : ℕ) → k < 3 * count → mate_at sides (mate_at sides k) ≡ k },
}

impl SkinNet {
    ghost use Rattle.skin.specs.SkinTables.{SideAt};

    // What side e of item i leads to; out of range, none.
    pub(crate) fn at(&self, item: usize, side: usize) -> Option<Side>
        ensures { SideAt self.now.count self.now.sides item side result }
    {
        if item < self.count && side < 3 {
            Some(self.sides[3 * item + side])
        } else {
            None
        }
    }
}
