//! Which user may run which procedure on which items, as it is set up.
#![tactic(auto)]

pub mod associations;
pub mod rows;
