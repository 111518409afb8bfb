// What the programs that replay samples have in common: a sample's words, its rows, and the replay of its cases and the tally of what they
// returned.
//
// A sample is a row of 32-bit words, least significant byte first: how many cases there are, then each case, which begins with its size in
// bytes.
#![tactic(auto)]

pub mod replay;
pub mod rows;
pub mod tally;
pub mod words;
