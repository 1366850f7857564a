//! The stack of policies that a layout house runs.
#![tactic(auto)]

pub mod stack;
