// The invariant of the pools of a run (SPECIFICATION 3.8). There is no code here. Internal.
#![tactic(auto)]
