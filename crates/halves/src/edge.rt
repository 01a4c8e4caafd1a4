//! The edges of a half-face.
ghost use Rattle.std.specs.Prelude.{◌≡◌, ◌<◌, ◌⊎◌, IsTrue, ◌↔◌};

use refusal::Refusal;

/// An edge, in the direction in which a half-face reads it.
#[derive(Clone, Copy, PartialEq, Eq, Debug)]
pub struct Edge {
    pub from: u16,
    pub to: u16,
}

impl Edge {
    /// Whether v is one of its two vertices.
    pub fn has(self, v: u16) -> bool
        ensures { IsTrue result ↔ ((v ≡ self.from) ⊎ (v ≡ self.to)) }
    {
        v == self.from || v == self.to
    }
}

/// The place of an edge in a reading p q r: 0, 1 and 2 are p q, q r and r p.
// A number and no enum, since callers hand it over and are answered it as one.
#[derive(Clone, Copy)]
pub struct EdgePlace {
    pub number: u16,
    ghost low: { number < 3 },
}

impl TryFrom<u16> for EdgePlace {
    type Error = Refusal;

    ghost use Rattle.halves.specs.Edges.{TellsPlace};

    ghost try_from_gives = { TellsPlace };

    fn try_from(number: u16) -> Result<EdgePlace, Refusal> {
        if number > 2 {
            return Err(Refusal::EdgePlaceTooHigh);
        }
        Ok(EdgePlace { number })
    }
}
