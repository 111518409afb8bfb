// How a note file's bytes are read: bit fields, little-endian words and VInts.
#![tactic(auto)]

pub mod bits;
pub mod vint;
