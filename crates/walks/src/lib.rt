// How the ties (crates `tie`, `byte_tie`, `served_tie`) say that code keeps its contract. There is no code here. Internal.
#![tactic(auto)]
