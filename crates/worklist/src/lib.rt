//! Work lists: how orders are written, the reader of a list, and the lines of answers. Nothing here allocates.
#![tactic(auto)]

mod answer;
mod cut;
mod fault;
mod line;
mod list;
mod number;
mod order;
mod put;

pub use answer::Answer;
pub use fault::Fault;
pub use list::{check_list, next_to_run};
pub use order::Order;
