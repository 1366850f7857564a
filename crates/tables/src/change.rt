//! What a call changes in the tables.
use crate::tables::{Mode, Object, Process};
use policy::place::Place;
use policy::words::ProgramType;

/// It is a value and no closure: a plan is compared with its definition, change and all, and a stored closure needs a box.
#[derive(Clone, Copy)]
pub enum Change {
    Nothing,
    /// A process sits down in a seat, or none is left there.
    Seat {
        seat: Place<32>,
        process: Option<Process>,
    },
    /// The process in a seat is of this type now.
    Become {
        seat: Place<32>,
        runs: ProgramType,
    },
    /// The process in a seat holds an object in a mode; where it truncates the object, its length is 0.
    Hold {
        seat: Place<32>,
        object: Place<64>,
        mode: Mode,
        truncate: bool,
    },
    /// The process in a seat lets a mode go.
    LetGo {
        seat: Place<32>,
        object: Place<64>,
        mode: Mode,
    },
    /// An object has this length now.
    Length {
        object: Place<64>,
        length: u32,
    },
    /// An object begins to be, or is no longer.
    Put {
        object: Place<64>,
        thing: Option<Object>,
    },
}
