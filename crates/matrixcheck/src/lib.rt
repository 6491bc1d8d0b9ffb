// What the writer of matrix packs is given, checked before the first byte is written.
#![tactic(auto)]

pub mod check;
