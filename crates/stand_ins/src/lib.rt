#![tactic(auto)]
// Wrong kernels, each proved to fail a demand; there is no code here.
