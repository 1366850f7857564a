//! The policies that go by the owner's system role.
#![tactic(auto)]

pub mod functional_control;
pub mod security_information;
