//! What is tried on the ladder.
use policy::words::{Kind, Request};

/// A request on a kind of object, the two labels, and in words what it tries.
#[derive(Clone, Copy)]
pub struct Try {
    pub request: Request,
    pub kind: Kind,
    pub process: u64,
    pub object: u64,
    pub what: &'static str,
}

pub const TRIES: [Try; 9] = [
    Try {
        request: Request::ReadOpen,
        kind: Kind::File,
        process: 1,
        object: 2,
        what: "a low process opens a higher drawing for reading",
    },
    Try {
        request: Request::ReadOpen,
        kind: Kind::File,
        process: 2,
        object: 1,
        what: "a high process opens a lower drawing for reading",
    },
    Try {
        request: Request::WriteOpen,
        kind: Kind::File,
        process: 2,
        object: 2,
        what: "a process opens a drawing of its own label for writing",
    },
    Try {
        request: Request::WriteOpen,
        kind: Kind::File,
        process: 2,
        object: 1,
        what: "a high process opens a lower drawing for writing",
    },
    Try {
        request: Request::WriteOpen,
        kind: Kind::File,
        process: 1,
        object: 2,
        what: "a low process opens a higher drawing for writing",
    },
    Try {
        request: Request::ReadOpen,
        kind: Kind::File,
        process: 3,
        object: 4,
        what: "the drawing's label is no step of the ladder",
    },
    Try {
        request: Request::WriteOpen,
        kind: Kind::File,
        process: 4,
        object: 4,
        what: "both labels are equal, and no step of the ladder",
    },
    Try {
        request: Request::Read,
        kind: Kind::File,
        process: 4,
        object: 2,
        what: "an open drawing is read: no label is looked at",
    },
    Try {
        request: Request::ReadOpen,
        kind: Kind::Ipc,
        process: 2,
        object: 1,
        what: "an ipc object is opened for reading: there is no such row",
    },
];
