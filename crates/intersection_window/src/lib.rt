// A window of the intersection: the blocks in which all bounds hold.
#![tactic(auto)]

pub mod window;
