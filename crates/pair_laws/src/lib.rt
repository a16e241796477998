// Laws of two kernels on one chain, for the demands and for code.

#![tactic(auto)]
