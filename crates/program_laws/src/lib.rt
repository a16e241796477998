// Laws of the two programs as a whole: what they write, however their input arrives. No functions.

#![tactic(auto)]
