// Array packs: the Value of a Multidimensional Array Truncation Pack with element processing 1.
#![tactic(auto)]

// The greatest product of sizes, and of sizes and E.
pub const MOST: u32 = 32768;
