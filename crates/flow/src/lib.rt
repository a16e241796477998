// Laws alone: the chain of filters as numbers.

#![tactic(auto)]
