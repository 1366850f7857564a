//! Label orders: which codes are lawful labels, and which label dominates which.
#![tactic(auto)]

pub mod compartments;
pub mod ladder;
pub mod order;
