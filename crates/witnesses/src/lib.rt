// Short runs, computed, which meet the premises of the guarantee's claims: none of them is true for want of a case. There is no code here. Internal.
#![tactic(auto)]
