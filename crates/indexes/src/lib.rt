//! The face index and the edge index of a sealed ground.
#![tactic(auto)]

mod edges;
mod faces;
mod handing;
mod keys;
mod rule;

pub use edges::edge_index;
pub use faces::face_index;
pub use rule::{Side, stands};
