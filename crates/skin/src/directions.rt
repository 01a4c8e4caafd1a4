//! Whether two mates read their edge in the same direction.
ghost use Rattle.std.specs.Prelude.{◌≡◌, ◌<◌};
ghost use Rattle.rules.specs.Readings.{reads};
ghost use Rattle.rules.specs.Joins.{Half};
ghost use Rattle.rules.specs.Mates.{Runs};
ghost use Rattle.ground.specs.Grounds.{plain_sealed};
ghost use Rattle.carry.specs.declared.turn.Turn.TheVariants.{Straight, Turned};

use carry::Turn;
use ground::Sealed;
use halves::{Edge, EdgePlace, HalfFace};
use mates::EdgeSide;

// The edge, in the direction in which its half-face reads it.
pub(crate) fn edge(ground: &Sealed, side: EdgeSide) -> Edge
    requires half { Half (plain_sealed ground.now).list side.half_face }
    requires place { side.place < 3 }
    ensures { Runs (reads (plain_sealed ground.now).list side.half_face) side.place result.from result.to }
{
    let Ok(half_face) = HalfFace::of(ground, side.half_face) else {
        unreachable()
    };
    half_face.edge(EdgePlace { number: side.place })
}

// The step between two edges: 1 where they are the same edge in the same direction.
pub(crate) fn turn_between(here: Edge, there: Edge) -> Turn
    ensures same { here ≡ there → result ≡ Turned }
    ensures opposed { (here ≡ there → ⊥) → result ≡ Straight }
{
    // said here and once in the ground, so no `From<bool>` stands for it
    if here == there {
        Turn::Turned
    } else {
        Turn::Straight
    }
}
