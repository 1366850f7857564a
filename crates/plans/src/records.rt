//! Records of what a call asks for, made from the tables.
ghost use Rattle.std.specs.Prelude.{◌≡◌};
ghost use Rattle.plans.specs.Records.{subject_of, target_of, bare_target, at_home};

use policy::place::Place;
use policy::record::{Record, Subject, Target};
use policy::words::{Category, DataType, IntegrityRole, Kind, ProgramType, Request, SystemRole};
use tables::tables::{Process, Tables};

/// The process in a seat, as the one who asks.
pub(crate) fn subject(tables: &Tables, seat: Place<32>, process: &Process) -> Subject
    ensures { result ≡ subject_of tables.now seat process.now }
{
    let (role, integrity) = tables.users[usize::from(process.owner)].map_or(
        (SystemRole::User, IntegrityRole::Nil),
        |user| (user.role, user.integrity),
    );
    Subject {
        seat,
        owner: process.owner,
        role,
        integrity,
        label: process.label,
        runs: process.runs,
    }
}

/// An object as what is asked for.
pub(crate) fn target(tables: &Tables, object: Place<64>) -> Target
    ensures { result ≡ target_of tables.now object }
{
    match &tables.objects[usize::from(object)] {
        Some(thing) => Target {
            object: Some(object),
            kind: thing.kind,
            label: thing.label,
            category: thing.category,
            program: thing.program,
            content: thing.content,
        },
        None => bare_target(Some(object), Kind::NoObject, 0),
    }
}

/// What is asked for where it has at most a number, a kind and a label.
pub(crate) fn bare_target(object: Option<Place<64>>, kind: Kind, label: u64) -> Target
    ensures { result ≡ bare_target object kind label }
{
    Target {
        object,
        kind,
        label,
        category: Category::General,
        program: ProgramType::Nil,
        content: DataType::Nil,
    }
}

/// A request on a home; it falls away where there is none. Request and subject are no struct: they are a record but for its target.
pub(crate) fn at_home(
    tables: &Tables,
    request: Request,
    subject: Subject,
    home: Option<Place<64>>,
) -> Option<Record>
    ensures { result ≡ at_home tables.now request subject home }
{
    home.map(|home| Record {
        request,
        subject,
        target: target(tables, home),
    })
}
