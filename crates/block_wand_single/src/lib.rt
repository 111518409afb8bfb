// The single-term scan: a block whose bound is not above the threshold is left out, every other one is walked.
#![tactic(auto)]

pub mod scan;
