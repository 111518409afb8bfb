// What is asked of a block's postings where they stand in their buffers: rows 7 and 8, a copy, and which score is the highest.
#![tactic(auto)]

pub mod tests;
pub mod top;
