//! The three counts of a ground.

/// How many cells, joined triangles and skin triangles a ground has.
#[derive(Clone, Copy, PartialEq, Eq, Debug)]
pub struct Counts {
    pub cells: u16,
    pub joined: u16,
    pub skin: u16,
}
