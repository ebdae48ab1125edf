// Laws only: what every call keeps. They stand in proofs/.
#![tactic(auto)]
