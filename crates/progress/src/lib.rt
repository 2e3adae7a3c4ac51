// Why somebody always gets through (GUARANTEE 24): a rank of the pools of a run that falls at every accepted step which is no answer. There is no code
// here. Internal.
#![tactic(auto)]
