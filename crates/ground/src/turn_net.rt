//! The turn net: the cells, joined by their half-faces. A step is 1 where the two half-faces read alike.
ghost use Rattle.std.specs.Prelude.{◌≡◌, ℕ, ◌/◌, ◌<◌};
ghost use Rattle.carry.specs.Turns.{turn_meaning};
ghost use Rattle.rules.specs.NetTests.{turning};
ghost use Rattle.ground.specs.Nets.{joined_rows, turn_net_web};

use crate::joined::Joined;
use crate::row::read_alike;
use carry::{Label, Net, Place, Turn};

/// The net over which a ground's turns are carried. A sealed ground hands it out.
#[derive(Clone, Copy)]
pub struct TurnNet<'c> {
    pub(crate) cells: Joined<'c>,
}

impl<'c> TurnNet<'c> {
    // The step from half-face h to half-face g.
    fn turn_between(&self, h: usize, g: usize) -> Turn
        requires { (h / 4 < self.now.cells.count) × (g / 4 < self.now.cells.count) }
        ensures { turn_meaning result ≡ turning (joined_rows self.now.cells) h g }
    {
        let here = self.cells.reading(h);
        let there = self.cells.reading(g);
        // said here and once in the skin net, so no `From<bool>` stands for it
        if read_alike(here, there) {
            Turn::Turned
        } else {
            Turn::Straight
        }
    }
}

impl Net for TurnNet<'_> {
    type Label = Turn;

    const SIDES: usize = 4;

    ghost web = { turn_net_web };

    fn side_count(&self) -> usize {
        Self::SIDES
    }

    fn count(&self) -> usize {
        self.cells.count
    }

    fn join(&self, item: usize, side: usize) -> Option<Place> {
        self.cells.place(item, side)
    }

    fn step(&self, item: usize, side: usize) -> Turn {
        match self.cells.partner(item, side) {
            Some(g) => self.turn_between(4 * item + side, g as usize),
            None => Turn::Straight,
        }
    }
}
