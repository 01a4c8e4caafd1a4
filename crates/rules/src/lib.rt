//! The rules: what rows, half-faces, readings, joins and stars are, as definitions that every contract draws on.
#![tactic(auto)]
