// The tie between the functions for other languages and what is claimed of the specification's calls, as statements (specs) and their proofs. There is
// no code here.
#![tactic(auto)]
