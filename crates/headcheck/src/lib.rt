// Whether a note file's header and its lists' entries are right: the table's conditions 1 and 4.
#![tactic(auto)]

pub mod entry;
pub mod header;
