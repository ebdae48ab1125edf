// Laws only: what every filling does. They stand in proofs/.
#![tactic(auto)]
