//! A net that is given by a table, for the checks of carry.
ghost use Rattle.std.specs.Prelude.{◌≡◌, ◌<◌, ◌≤◌, map, length};
ghost use Rattle.checks.specs.Tables.{name_at, table_web};

use carry::{Label, Net, Place};

// The number of sides, which a generic impl cannot read off `Self::SIDES` in a proof.
const SIDES: usize = 2;

/// At most four items with two sides each, in lists that have side `s` of item `i` at `2 * i + s`.
/// The steps are a list of their own, since the tests put several on the same joins.
///
/// Two sides are joined where each names the other, so joins lead back whatever the table holds.
#[derive(Drop)]
pub struct Table<L> {
    pub items: usize,
    pub names: [Option<Place>; 8],
    pub steps: [L; 8],
    ghost few: { items ≤ 4 },
    ghost long: { length steps ≡ 8 },
}

impl<L: Label + Copy> Table<L> {
    // The side that a side of an item names.
    #[tactic(auto, unfolding(crate::specs::Tables::name_at))]
    fn named(&self, item: usize, side: usize) -> Option<Place>
        ensures { result ≡ name_at self.now.items self.now.names item side }
    {
        if item < self.items && side < SIDES {
            self.names[2 * item + side]
        } else {
            None
        }
    }
}

impl<L: Label + Copy> Net for Table<L> {
    type Label = L;

    const SIDES: usize = SIDES;

    ghost web = { λ t. table_web t.items t.names (map L.Label.meaning t.steps) L.Label.kind };

    fn side_count(&self) -> usize {
        SIDES
    }

    fn count(&self) -> usize {
        self.items
    }

    fn join(&self, item: usize, side: usize) -> Option<Place> {
        let p = self.named(item, side)?;
        let back = self.named(p.item, p.side)?;
        let here = Place { item, side };
        if back == here { Some(p) } else { None }
    }

    #[tactic(auto, using(crate::proofs::TableJoins::joined_listed))]
    fn step(&self, item: usize, side: usize) -> L {
        match self.join(item, side) {
            Some(_) => self.steps[2 * item + side],
            None => L::neutral(),
        }
    }
}
