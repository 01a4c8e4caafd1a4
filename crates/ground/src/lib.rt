//! The ground round a tank: tetrahedra with their half-faces joined, open for changes or sealed for questions.
#![tactic(auto)]

mod cell;
mod cells;
mod counts;
mod joined;
mod links;
mod listing;
mod numbers;
mod open;
mod row;
mod sealed;
mod search;
mod stage;
mod turn_net;

pub use cell::Cell;
pub use counts::Counts;
pub use joined::Joined;
pub use open::make;
pub use stage::{Open, Sealed};
pub use turn_net::TurnNet;
