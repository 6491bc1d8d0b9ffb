// Lines of hexadecimal, one frame each, and the report on an input that is fed in chunks.
#![tactic(auto)]

pub mod feed;
