// The skip reader of one list of an accepted file, and the blocks that are loaded where it stands.
#![tactic(auto)]

pub mod block;
pub mod skip;
