#![tactic(auto)]
// What a call comes to, in the source's terms, and a row of checks as code follows it; there is no code here.
