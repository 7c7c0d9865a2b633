#![tactic(auto)]
// The promises of `kernel` meet the three demands: theorems of any functions that keep them, with no code of its own.
