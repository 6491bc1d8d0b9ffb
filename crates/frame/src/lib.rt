// Frames: a key, a BER length and a value; the answer to a frame's bytes.
#![tactic(auto)]

pub mod examine;
