// The tie between what the calls promise and the guarantee. There is no code here. Public to read: specs/ has the statements.
#![tactic(auto)]
