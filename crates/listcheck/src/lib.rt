// What one list is refused for: the table's conditions 5 to 9, and their order.
#![tactic(auto)]

pub mod bounds;
pub mod list;
