//! The tests of the ground and of what stands on it, in a crate of their own so that those are proved once.
#![tactic(auto)]

#[cfg(test)]
mod ground_calls;
#[cfg(test)]
mod ground_list_tests;
#[cfg(test)]
mod ground_tests;
#[cfg(test)]
mod indexes_tests;
#[cfg(test)]
mod lists;
#[cfg(test)]
mod nets_tests;
#[cfg(test)]
mod orient_tests;
