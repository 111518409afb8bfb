// Whether a note file is accepted: the table's conditions 1 to 4, then the lists.
#![tactic(auto)]

pub mod check;
