//! The skin net of a sealed ground: the skin triangles, joined where they are mates.
#![tactic(auto)]

mod build;
mod directions;
mod net;
mod side;
mod table;

pub use build::skin_net;
pub use side::Side;
pub use table::SkinNet;
