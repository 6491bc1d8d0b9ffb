// The large theorems about the calls, in one place: proofs alone, no functions.

#![tactic(auto)]
