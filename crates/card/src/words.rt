//! What a row of the label table needs, in words.
use label_policies::label_table::{Condition, Row};
use policy::words::Request;

/// What a row needs. Two rows compare other labels than a process's and an object's. It is no `Display` of a row, which is more than what it needs.
pub(crate) fn condition_words(row: &Row) -> &'static str {
    match (row.request, row.condition) {
        (_, Condition::Free) => "nothing",
        (Request::SendSignal, Condition::Equal) =>
            "process label equals label of the process signalled",
        (_, Condition::Equal) => "process label equals object label",
        (Request::Enter, Condition::Dominates) => "user's approval dominates label asked for",
        (_, Condition::Dominates) => "process label dominates object label",
    }
}
