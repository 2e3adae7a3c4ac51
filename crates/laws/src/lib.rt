// Laws about the pool's definitions that the proofs of the code and those of the guarantee share. There is no code here. Internal.
#![tactic(auto)]
