// What the program `print` puts into its buffer, and how many lists it asks for.
#![tactic(auto)]

pub mod lists;
pub mod rows;
pub mod run;
pub mod text;
