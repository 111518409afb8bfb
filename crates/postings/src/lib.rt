// One list of an accepted file while a run goes over it: a scorer's place in the blocks that its skip reader finds,
// and what a seek answers.
#![tactic(auto)]

pub mod answer;
pub mod cursor;
