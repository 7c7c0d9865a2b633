#![tactic(auto)]
// Laws about the rules that many proofs use; there is no code here.
