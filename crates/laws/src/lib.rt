// Laws on lists and numbers that several layers cite: no code.
#![tactic(auto)]
