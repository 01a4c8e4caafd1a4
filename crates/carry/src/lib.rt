//! Labels carried over the joins of any net.
#![tactic(auto)]

mod corner;
mod counted;
mod label;
mod labelling;
mod marks;
mod net;
mod turn;
mod walk;

pub use corner::Corner;
pub use label::Label;
pub use labelling::carry;
pub use net::{Net, Place};
pub use turn::Turn;
