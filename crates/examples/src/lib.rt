//! Records to try policies on, three chains of items, and the marked examples.
#![tactic(auto)]

pub mod chains;
pub mod marked;
pub mod records;
