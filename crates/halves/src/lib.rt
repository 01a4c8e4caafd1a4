//! Half-faces that are there, with the sealed ground that they are of, which is asked by its public
//! questions.
#![tactic(auto)]

mod edge;
mod half_face;

pub use edge::{Edge, EdgePlace};
pub use half_face::HalfFace;
