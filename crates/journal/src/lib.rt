//! Journals of calls, and the call that replays one.
#![tactic(auto)]

mod calls;
mod change;
mod desk;
mod found;
mod parts;
mod question;
mod runs;
mod stage;

pub use calls::{Answer, Call, Change, Exchange, Part, Question, Reply};
pub use desk::Desk;
pub use runs::replay;
