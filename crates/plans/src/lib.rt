//! What each call would do: why it is refused before any policy is asked, or what it asks for, changes and answers.
#![tactic(auto)]

pub mod call;
mod checks;
mod object_plans;
pub mod plan;
mod process_plans;
mod records;
