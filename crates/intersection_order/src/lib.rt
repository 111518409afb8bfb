// The scorers of an intersection in their order, each in its slot: the leader first, then the secondaries.
#![tactic(auto)]

pub mod order;
