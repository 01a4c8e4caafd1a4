//! An edge in one reading, and in one row.
ghost use Rattle.std.specs.Prelude.{◌<◌};
ghost use Rattle.rules.specs.Rows.{Repeated};
ghost use Rattle.rules.specs.Readings.{reads, face};
ghost use Rattle.rules.specs.Mates.{EdgeAt};
ghost use Rattle.halves.specs.HalfFaces.{rows_of};
ghost use Rattle.mates.specs.Edges.{Spans, Has, Across};

use halves::{Edge, EdgePlace, HalfFace};

// The place that the edge has in a half-face.
pub(crate) fn place_of(there: HalfFace, edge: Edge) -> EdgePlace
    requires { Has there edge }
    ensures { EdgeAt (reads (rows_of there.entry) there.entry.number) result.number edge.from edge.to }
{
    let [p, _, r] = there.reading();
    let number = if !edge.has(r) {
        0
    } else if !edge.has(p) {
        1
    } else {
        2
    };
    EdgePlace { number }
}

// The half-face of the row, other than i, that has the edge: it lacks the corner that is neither
// corner i nor on the edge. A row and a corner are no struct: nothing holds of the two together.
pub(crate) fn across(row: [u16; 4], i: usize, edge: Edge) -> usize
    requires differ { Repeated row → ⊥ }
    requires low { i < 4 }
    requires spans { Spans (face row i) edge.from edge.to }
    ensures { Across row i edge.from edge.to result }
{
    let Some(k) = (0..4).find(|&k| k != i && !edge.has(row[k])) else {
        unreachable()
    };
    k
}
