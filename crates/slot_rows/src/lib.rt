// A scorer's two rows of numbers: its list's part, and its place in the list.
#![tactic(auto)]

pub mod place;
