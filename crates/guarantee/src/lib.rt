// The guarantee (docs/GUARANTEE.md) as statements (specs/Claims.antt) and their proofs. There is no code here. Public to read: specs/ has the
// statements.
#![tactic(auto)]
