//! The policy of Clark and Wilson: constrained items are touched only through procedures, by the users associated with them.
#![tactic(auto)]

mod row_set;
pub mod triples;
