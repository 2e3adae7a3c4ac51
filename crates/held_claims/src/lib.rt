// What is claimed of calls in place beside the specification's calls, as statements (specs/HeldClaims.antt) and their proofs. There is no code here.
#![tactic(auto)]
