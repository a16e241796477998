// Statements alone: what is promised of two kernels on one chain.

#![tactic(auto)]
