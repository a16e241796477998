// Laws alone: grids and windows in arrays.

#![tactic(auto)]
