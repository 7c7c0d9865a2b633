#![tactic(auto)]
// Soundness judged in one walk over the records: what the walk asks of each, and that it says what the rules say.
// There is no code here.
