// Lists of calls with reads and writes among them, as statements (specs/Mixed.antt) and their proofs. There is no code here.
#![tactic(auto)]
