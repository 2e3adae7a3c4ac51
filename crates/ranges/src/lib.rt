// What check 8 says of a pool's numbers, for the code that tests it, the code that relies on it and the proof that it is never met. There is no code
// here. Internal.
#![tactic(auto)]
