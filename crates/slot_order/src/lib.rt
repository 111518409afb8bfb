// A union's scorers in their order: their slots stand in a lent row, and the tables say where each scorer stands.
#![tactic(auto)]

pub mod restore;
