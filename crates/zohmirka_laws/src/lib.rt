// What else is promised of the functions for C and Rust: statements (specs/Promises) and proofs (proofs/).

#![tactic(auto)]
