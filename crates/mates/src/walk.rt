//! The walk round an edge.
ghost use Rattle.std.specs.Prelude.{◌≡◌};
ghost use Rattle.rules.specs.Joins.{OnSkin};
ghost use Rattle.rules.specs.Mates.{Beside, Mate};
ghost use Rattle.halves.specs.HalfFaces.{rows_of};
ghost use Rattle.mates.specs.Edges.{Has};

use crate::edge::across;
use halves::{Edge, HalfFace};

// The other half-face of the cell of `here` that has the edge.
fn beside<'g, 'a>(here: HalfFace<'g, 'a>, edge: Edge) -> HalfFace<'g, 'a>
    requires { Has here edge }
    ensures ground { result.ground ≡ here.entry.ground }
    ensures beside { Beside (rows_of here.entry) edge.from edge.to here.entry.number result.number }
{
    let i = across(here.corners(), here.number as usize % 4, edge);
    HalfFace {
        ground: here.ground,
        number: 4 * (here.number / 4) + i as u16,
    }
}

// The mate of an open half-face at the edge. Each step can be gone back in one way only and none
// leads to where the walk began, so it comes to no half-face twice, and ends.
pub(crate) fn walk<'g, 'a>(here: HalfFace<'g, 'a>, edge: Edge) -> HalfFace<'g, 'a>
    requires skin { OnSkin (rows_of here) here.number }
    requires has { Has here edge }
    ensures ground { result.ground ≡ here.entry.ground }
    ensures mate { Mate (rows_of here.entry) edge.from edge.to here.entry.number result.number }
{
    let mut there = beside(here, edge);
    while let Some(opposite) = there.opposite() {
        there = beside(opposite, edge);
    }
    there
}
