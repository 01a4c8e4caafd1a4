//! The record of one cell.
ghost use Rattle.std.specs.Prelude.{◌≡◌};
ghost use Rattle.rules.specs.Rows.{row};
ghost use Rattle.ground.specs.Records.{nones, turned_cell};

/// A cell place: the four vertices of a cell in the order of its corners, and for each half-face
/// the half-face that it is joined to. What a place holds that no cell uses is nobody's business.
#[derive(Clone, Copy)]
pub struct Cell {
    pub(crate) corners: [u16; 4],
    pub(crate) joins: [Option<u16>; 4],
}

impl Cell {
    /// A free place, to make a list of places from.
    pub fn free() -> Cell
        ensures corners { result.corners ≡ row 0 1 2 3 }
        ensures joins { result.joins ≡ nones }
    {
        Cell {
            corners: [0, 1, 2, 3],
            joins: [None; 4],
        }
    }

    // Corners 2 and 3 exchanged, with the joins of the two half-faces without them.
    pub(crate) fn turned(mut self) -> Cell
        ensures { result ≡ turned_cell self }
    {
        self.corners.swap(2, 3);
        self.joins.swap(2, 3);
        self
    }
}
