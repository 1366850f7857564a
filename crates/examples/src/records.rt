//! Records to try policies on: a routing process and the drawings it asks for.
use policy::place::Place;
use policy::record::{Record, Subject, Target};
use policy::words::{Category, DataType, IntegrityRole, Kind, ProgramType, Request, SystemRole};

/// Level 1, member 0.
pub const LOW: u64 = 65_537;

/// Level 2, members 0 and 1: it dominates the low one.
pub const HIGH: u64 = 131_075;

/// A process of no type in seat 1; its owner, user 1, may run transformation procedures.
pub const ROUTER: Subject = Subject {
    seat: Place { index: 0 },
    owner: Place { index: 0 },
    role: SystemRole::User,
    integrity: IntegrityRole::TpUser,
    label: LOW,
    runs: ProgramType::Nil,
};

/// Object 1, a file for everyone.
pub const DRAWING: Target = Target {
    object: Some(Place { index: 0 }),
    kind: Kind::File,
    label: LOW,
    category: Category::General,
    program: ProgramType::Nil,
    content: DataType::Nil,
};

/// The process opens the drawing for reading.
pub const PLAIN: Record = Record {
    request: Request::ReadOpen,
    subject: ROUTER,
    target: DRAWING,
};

/// The process executes the release routine, object 10, and becomes a transformation procedure.
pub const BEGIN: Record = Record {
    request: Request::Execute,
    target: Target {
        object: Some(Place { index: 9 }),
        program: ProgramType::Tp,
        ..DRAWING
    },
    ..PLAIN
};

/// The process once it runs the release routine.
pub const RELEASE: Subject = Subject {
    runs: ProgramType::Tp,
    ..ROUTER
};

/// A constrained item: object 1.
pub const ITEM: Target = Target {
    content: DataType::Cdi,
    ..DRAWING
};

/// The release routine opens item 1 for reading.
pub const OPEN_ONE: Record = Record {
    subject: RELEASE,
    target: ITEM,
    ..PLAIN
};

/// It opens item 2.
pub const OPEN_TWO: Record = Record {
    target: Target {
        object: Some(Place { index: 1 }),
        ..ITEM
    },
    ..OPEN_ONE
};

/// It opens item 3.
pub const OPEN_THREE: Record = Record {
    target: Target {
        object: Some(Place { index: 2 }),
        ..ITEM
    },
    ..OPEN_ONE
};
