// Documents by differences.
#![tactic(auto)]

pub mod documents;
