//! What a call will do if all that it asks for is granted.
use policy::record::Record;
use tables::change::Change;

#[derive(Clone, Copy)]
pub struct Plan {
    /// what is asked for, in the order in which it is judged
    pub requests: [Option<Record>; 3],
    /// the record of a process that is ended: it is noted, and nobody judges it
    pub ended: Option<Record>,
    pub change: Change,
    pub answer: u64,
}
