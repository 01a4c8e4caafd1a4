//! The skin net as a net.
ghost use Rattle.skin.specs.SkinTables.{skin_net_web};

use crate::table::SkinNet;
use carry::{Net, Place, Turn};

impl Net for SkinNet {
    type Label = Turn;

    const SIDES: usize = 3;

    ghost web = { skin_net_web };

    fn side_count(&self) -> usize {
        Self::SIDES
    }

    fn count(&self) -> usize {
        self.count
    }

    fn join(&self, item: usize, side: usize) -> Option<Place> {
        let mate = self.at(item, side)?.mate as usize;
        Some(Place {
            item: mate / 3,
            side: mate % 3,
        })
    }

    fn step(&self, item: usize, side: usize) -> Turn {
        self.at(item, side).map_or(Turn::Straight, |side| side.turn)
    }
}
