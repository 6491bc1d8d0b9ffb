// The rules that words of a matrix keep, and the scaled coefficient.
#![tactic(auto)]

pub mod rules;
pub mod scaled;
