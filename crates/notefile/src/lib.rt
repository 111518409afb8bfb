// The note file: its header, entries and parts, and its lists' skip entries and blocks.
#![tactic(auto)]

pub mod block;
pub mod header;
pub mod part;
pub mod skip;
