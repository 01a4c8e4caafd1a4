//! What is wrong with a work list, and where.
use refusal::Refusal;

/// The first faulty line of a work list, counted from 1, or 0 for the text as a whole.
#[derive(Clone, Copy, PartialEq, Eq, Debug)]
pub struct Fault {
    pub refusal: Refusal,
    pub line: u16,
}
