// What the frames and the store hold: a read answers the last byte written, and no refusal changes a byte. There is no code here. Internal.
#![tactic(auto)]
