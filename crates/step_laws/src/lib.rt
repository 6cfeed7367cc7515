// Laws of the steps' definitions; no code.

#![tactic(auto)]
