//! The turn: the label of what may be turned round, 0 or 1.
ghost use Rattle.carry.specs.Turns.{turn_meaning, turn_kind};
ghost use Rattle.carry.specs.TurnGroup.{turn_group};

use crate::label::Label;

/// Straight means 0 and turned means 1.
#[derive(Clone, Copy, PartialEq, Eq, Debug)]
pub enum Turn {
    Straight,
    Turned,
}

impl Label for Turn {
    ghost meaning = { turn_meaning };

    ghost kind = { turn_kind };

    ghost group = { turn_group };

    fn neutral() -> Turn {
        Turn::Straight
    }

    fn combine(self, other: Turn) -> Turn {
        match (self, other) {
            (Turn::Straight, o) => o,
            (Turn::Turned, Turn::Straight) => Turn::Turned,
            (Turn::Turned, Turn::Turned) => Turn::Straight,
        }
    }

    fn invert(self) -> Turn {
        self // each turn is its own inverse
    }

    fn same(self, other: Turn) -> bool {
        self == other
    }
}
