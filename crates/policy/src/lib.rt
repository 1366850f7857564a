//! What a policy is asked, what it answers, what it means, and how policies are stacked.
#![tactic(auto)]

pub mod interface;
mod names;
pub mod numbering;
pub mod place;
pub mod record;
pub mod refusal;
pub mod stack;
pub mod words;
