// Laws of the exported calls: no functions.
#![tactic(auto)]
