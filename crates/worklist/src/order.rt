//! The orders of a work list.

/// What one line of a work list says.
#[derive(Clone, Copy, PartialEq, Eq, Debug)]
pub enum Order {
    /// `L a b c d`: lay a cell on these four vertices
    Lay(u16, u16, u16, u16),
    /// `X t`: lift the cell
    Lift(u16),
    /// `T t`: turn the cell
    Turn(u16),
    /// `O`: turn cells until all joined triangles read opposite ways
    Orient,
    /// `K v`: the cells at a vertex
    CellsAtVertex(u16),
    /// `E v w`: the cells at an edge
    CellsAtEdge(u16, u16),
    /// `S`: how many cells, joined triangles and skin triangles there are
    Counts,
    /// `Z n`: the list ends here, after n lines
    Close(u16),
}
