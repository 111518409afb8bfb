// A union's moves: the scorers before a pivot come onto it, skip readers seek its blocks, and one scorer goes past blocks that are too low.
#![tactic(auto)]

pub mod align;
pub mod blocks;
pub mod low;
