// Laws alone: filters that stand as far apart as their references read.

#![tactic(auto)]
