// A union's scorers in their slots: the pivot among them, the scorer to seek, and all of them as structs in an array.
#![tactic(auto)]

pub mod pivot;
pub mod structs;
