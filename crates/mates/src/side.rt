//! An edge as a half-face has it.

/// An edge of a half-face.
#[derive(Clone, Copy, PartialEq, Eq, Debug)]
pub struct EdgeSide {
    pub half_face: u16,
    pub place: u16,
}
