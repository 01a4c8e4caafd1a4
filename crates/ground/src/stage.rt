//! Open and sealed grounds: the same cells, for changes and for questions.
ghost use Rattle.ground.specs.Listed.{Tallied};

use crate::cells::Cells;
use crate::counts::Counts;

/// An open ground, over places that it borrows. The vertices of each of its cells are below 4,096
/// and differ, no two cells have the same four, and two half-faces are joined exactly if they have
/// the same three.
#[derive(Drop)]
pub struct Open<'a> {
    pub(crate) cells: Cells<'a>,
    pub(crate) changes: u16,
}

/// A sealed ground: the same, with its three counts.
#[derive(Drop)]
pub struct Sealed<'a> {
    pub(crate) cells: Cells<'a>,
    pub(crate) changes: u16,
    pub(crate) counts: Counts,
    ghost tallied: { Tallied cells.records.now cells.count counts },
}
