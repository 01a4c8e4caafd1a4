//! Mates on the skin of a sealed ground, which is asked by its public questions.
#![tactic(auto)]

mod edge;
mod mating;
mod side;
mod walk;

pub use mating::mate;
pub use side::EdgeSide;
