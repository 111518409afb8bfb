// What one list of contents is refused for, of 7 to 9, and how many bytes its postings have.
#![tactic(auto)]

pub mod list;
