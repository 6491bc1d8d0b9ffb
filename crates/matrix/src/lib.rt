// Matrix packs: the Value of an SDCC-FLP in Mode 1 or Mode 2 Parse Control.

#![tactic(auto)]

// The size N, the five control fields by their names in the standard, and the mode; the flags stand last, where they share a word. `cf` and `sf`
// are true for mapped words, `mode1` for the one control byte of Mode 1.
#[derive(Clone, Copy)]
pub struct Fields {
    pub n: usize,
    pub clen: usize,
    pub slen: usize,
    pub cs: bool,
    pub cf: bool,
    pub sf: bool,
    pub mode1: bool,
}

// What a reader is told: the format of Mode 1's deviations, true for mapped words, and whether Mode 1 is let in.
#[derive(Clone, Copy)]
pub struct Told {
    pub mapped: bool,
    pub mode1: bool,
}
