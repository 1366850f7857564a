//! The record of one access. Its types carry its ranges, so that no policy has to ask.
use crate::place::Place;
use crate::words::{Category, DataType, IntegrityRole, Kind, ProgramType, Request, SystemRole};

/// Who asks: the seat, the user who owns its process, that user's two roles, and the process's label and type.
#[derive(Clone, Copy)]
pub struct Subject {
    pub seat: Place<32>,
    pub owner: Place<16>,
    pub role: SystemRole,
    pub integrity: IntegrityRole,
    pub label: u64,
    /// the type of the process, which is that of the program it runs
    pub runs: ProgramType,
}

/// What is asked for: the object, if there is one, its kind, label and category, and the types of its program and data.
#[derive(Clone, Copy)]
pub struct Target {
    pub object: Option<Place<64>>,
    pub kind: Kind,
    pub label: u64,
    pub category: Category,
    pub program: ProgramType,
    pub content: DataType,
}

#[derive(Clone, Copy)]
pub struct Record {
    pub request: Request,
    pub subject: Subject,
    pub target: Target,
}
