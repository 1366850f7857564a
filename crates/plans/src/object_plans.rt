//! The plans of the calls on objects.
ghost use Rattle.std.specs.Prelude.{◌≡◌};
ghost use Rattle.plans.specs.Plans.{opening, checked_open};

use crate::plan::Plan;
use crate::records::{at_home, subject, target};
use policy::numbering::word;
use policy::place::Place;
use policy::record::Record;
use policy::refusal::Refusal;
use policy::words::{Kind, Request};
use tables::change::Change;
use tables::tables::{Mode, Tables};

/// The plan of an open. Its numbers are bare, as the call gives them: a wrong one is refused by its position.
pub(crate) fn plan_open(
    tables: &Tables,
    seat: u64,
    object: u64,
    mode: u64,
    truncate: u64,
) -> Result<Plan, Refusal>
    ensures { result ≡ checked_open tables.now seat object mode truncate }
{
    let seat = Place::numbered(seat, 1)?;
    let object = Place::numbered(object, 2)?;
    let mode = word(&Mode::ALL, 1, mode, 3)?;
    let truncate = word(&[false, true], 0, truncate, 4)?;
    let process = tables.processes[usize::from(seat)]
        .as_ref()
        .ok_or(Refusal::SeatEmpty)?;
    let thing = tables.objects[usize::from(object)]
        .as_ref()
        .ok_or(Refusal::ObjectUnused)?;
    if thing.kind == Kind::Directory {
        return Err(Refusal::WrongKind);
    }
    if process.holds[usize::from(object)].has(mode) {
        return Err(Refusal::HeldSoAlready);
    }
    let subject = subject(tables, seat, process);
    let target = target(tables, object);
    let asking = |request| Record {
        request,
        subject,
        target,
    };
    Ok(Plan {
        requests: [
            at_home(tables, Request::Search, subject, thing.home),
            truncate.then_some(asking(Request::DeleteData)),
            Some(asking(opening(mode))),
        ],
        ended: None,
        change: Change::Hold {
            seat,
            object,
            mode,
            truncate,
        },
        answer: 0,
    })
}

/// The request that opens in a mode.
fn opening(mode: Mode) -> Request
    ensures { result ≡ opening mode }
{
    match mode {
        Mode::Read => Request::ReadOpen,
        Mode::Write => Request::WriteOpen,
        Mode::ReadWrite => Request::ReadWriteOpen,
    }
}
