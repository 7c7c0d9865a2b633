#![tactic(auto)]
// What the program prints in the document's example; there is no code here.
