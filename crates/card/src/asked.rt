//! What is put to the stack of four: a record and a dozen that differ from it, and the steps of a release routine.
use examples::records::{BEGIN, HIGH, OPEN_ONE, OPEN_THREE, OPEN_TWO, PLAIN};
use policy::record::Record;
use policy::words::{Category, DataType, Kind, Request};

/// A record, and in words what it is, how it differs from the first, or which step it is.
#[derive(Clone, Copy)]
pub struct Asked {
    pub access: Record,
    pub what: &'static str,
}

/// A user's process opens a general file of its own label for writing.
const FIRST: Record = Record {
    request: Request::WriteOpen,
    ..PLAIN
};

/// The first code that compartments have no label for.
const UNLAWFUL: u64 = 16_777_216;

/// The first record, and others that differ from it in one field.
pub(crate) fn all_asked() -> [Asked; 13] {
    [
        Asked {
            access: FIRST,
            what: "a user opens a general file of the process's own label for writing",
        },
        other(
            "request 18 read-open",
            |access| access.request = Request::ReadOpen,
        ),
        other(
            "request 4 change-role",
            |access| access.request = Request::ChangeRole,
        ),
        other("request 25 enter", |access| access.request = Request::Enter),
        other(
            "process label 131,075",
            |access| access.subject.label = HIGH,
        ),
        other("object label 131,075", |access| access.target.label = HIGH),
        other(
            "object label 16,777,216, which is not lawful",
            |access| access.target.label = UNLAWFUL,
        ),
        other(
            "kind 2 directory",
            |access| access.target.kind = Kind::Directory,
        ),
        other(
            "category 1 security",
            |access| access.target.category = Category::Security,
        ),
        other(
            "category 2 system",
            |access| access.target.category = Category::System,
        ),
        other(
            "data 1 CDI, a constrained item",
            |access| access.target.content = DataType::Cdi,
        ),
        other(
            "data 2 CDIIC, integrity-control data",
            |access| access.target.content = DataType::Cdiic,
        ),
        other(
            "data 3 si, security information",
            |access| access.target.content = DataType::Si,
        ),
    ]
}

/// The first record once it is changed, by any change that may be made: so the `requires`.
fn other<F: FnOnce(&mut Record)>(what: &'static str, change: F) -> Asked
    requires { F.IsAlwaysCallable change }
{
    let mut access = FIRST;
    change(&mut access);
    Asked { access, what }
}

/// What a release routine does, in its order.
pub(crate) fn routine() -> [Asked; 4] {
    [
        Asked {
            access: BEGIN,
            what: "user 1 executes the routine",
        },
        Asked {
            access: OPEN_TWO,
            what: "it opens item 2 for reading",
        },
        Asked {
            access: OPEN_THREE,
            what: "it opens item 3 for reading",
        },
        Asked {
            access: OPEN_ONE,
            what: "it opens item 1 for reading",
        },
    ]
}
