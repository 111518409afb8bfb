// How a note file's bytes are made: header, entries and skip entries, a block's values, VInts.
#![tactic(auto)]

pub mod fields;
pub mod skips;
pub mod values;
pub mod vint;
