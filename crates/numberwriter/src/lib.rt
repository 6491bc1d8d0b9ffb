// Writing BER-OID numbers.
#![tactic(auto)]

pub mod write;
