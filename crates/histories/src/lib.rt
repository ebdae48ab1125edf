// Laws only: what holds after every history of calls. They stand in proofs/.
#![tactic(auto)]
