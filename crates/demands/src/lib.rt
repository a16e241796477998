// Statements and their proofs alone.

#![tactic(auto)]
