//! Where a side of a skin triangle leads.
use carry::Turn;

/// The side that a side is joined to, by its number, and the step there. Edge place e of item i is
/// side 3 i + e.
#[derive(Clone, Copy)]
pub struct Side {
    pub(crate) mate: u16,
    pub(crate) turn: Turn,
}
