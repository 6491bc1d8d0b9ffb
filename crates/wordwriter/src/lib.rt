// Big-endian words of 0 to 8 bytes, written one at a place, or many one after the other.
#![tactic(auto)]

pub mod bytes;
pub mod many;
