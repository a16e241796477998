// Laws alone: an accepted chain, and run calls on it.

#![tactic(auto)]
