//! What the vault keeps of users, processes and objects, and how a call changes it.
#![tactic(auto)]

pub mod change;
mod changing;
pub mod tables;
