//! Which half-face stands for an edge.
ghost use Rattle.indexes.specs.Rule.{Stands};

/// A half-face, and whether it is open.
// No Option: the number stands in both cases.
#[derive(Clone, Copy, PartialEq, Eq, Debug)]
pub struct Side {
    pub half_face: u16,
    pub is_open: bool,
}

/// Of two half-faces on an edge, the one that stands for it: an open one rather than a joined one,
/// and of two of the same sort the lower.
pub fn stands(held: Side, other: Side) -> Side
    ensures { Stands held other result }
{
    if (!other.is_open, other.half_face) < (!held.is_open, held.half_face) {
        other
    } else {
        held
    }
}
