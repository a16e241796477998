// Definitions alone.

#![tactic(auto)]
