#![tactic(auto)]
// What prefixes of up to 192 bits bring: no table that was sound is lost, and a right can reach one key alone; there is no code
// here.
