//! The tests of the crates that know nothing of cells, in a crate of their own so that those are proved once.
#![tactic(auto)]

#[cfg(test)]
mod carry_tests;
#[cfg(test)]
mod index_tests;
#[cfg(test)]
mod reader;
mod table;
