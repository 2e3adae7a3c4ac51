// The tie between what the calls of a pool that has bytes promise and the claims. There is no code here. Public to read: specs/ has the statements.
#![tactic(auto)]
