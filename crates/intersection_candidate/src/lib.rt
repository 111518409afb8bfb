// The leader's candidates in a window, and each of them against the secondaries.
#![tactic(auto)]

pub mod candidate;
pub mod leader;
