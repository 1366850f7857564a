//! The label policy with its table.
#![tactic(auto)]

pub mod label_listing;
pub mod label_policy;
pub mod label_table;
