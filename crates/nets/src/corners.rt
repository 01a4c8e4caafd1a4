//! The corner net: the cells, joined by their half-faces. A step says how the corners of joined cells lie.
ghost use Rattle.std.specs.Prelude.{◌≡◌};
ghost use Rattle.rules.specs.Nets.{CornerWeb};
ghost use Rattle.rules.specs.NetTests.{corner_web};
ghost use Rattle.ground.specs.Grounds.{plain_sealed};
ghost use Rattle.nets.specs.CornerNets.{corner_net_web, Crosses};

use crate::corner_step::corners_between;
use carry::{Corner, Label, Net, Place};
use ground::Sealed;
use halves::HalfFace;

/// The net over which a ground's corner labels are carried.
#[derive(Clone, Copy)]
pub struct CornerNet<'g, 'a> {
    pub(crate) ground: &'g Sealed<'a>,
}

/// The corner net of a sealed ground. The step over the join of corner i of a cell to corner j of
/// another sends j to i, and each other corner to that with the same vertex.
pub fn corner_net<'g, 'a>(ground: &'g Sealed<'a>) -> CornerNet<'g, 'a>
    ensures corners { CornerWeb (plain_sealed ground.now).list (corner_net_web result) }
    ensures computed { corner_net_web result ≡ corner_web (plain_sealed ground.now).list }
{
    // With its counts a ground tells that its rows are lawful, on which the net rests.
    let _ = ground.counts();
    CornerNet { ground }
}

impl CornerNet<'_, '_> {
    // The step over the join, if there is one.
    fn crossing(&self, item: usize, side: usize) -> Option<Corner>
        ensures { Crosses (corner_net_web self.now) item side result }
    {
        let here = HalfFace::at(self.ground, item, side)?;
        let there = here.opposite()?;
        Some(corners_between(here, there))
    }
}

impl Net for CornerNet<'_, '_> {
    type Label = Corner;

    const SIDES: usize = 4;

    ghost web = { corner_net_web };

    fn side_count(&self) -> usize {
        Self::SIDES
    }

    fn count(&self) -> usize {
        self.ground.counts().cells as usize
    }

    fn join(&self, item: usize, side: usize) -> Option<Place> {
        self.ground.turn_net().join(item, side)
    }

    fn step(&self, item: usize, side: usize) -> Corner {
        self.crossing(item, side)
            .unwrap_or_else(<Corner as Label>::neutral)
    }
}
