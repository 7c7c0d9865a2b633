#![tactic(auto)]
// The three demands, stated of any kernel; the first and the third are proved of every kernel that meets the second. There is no
// code here.
