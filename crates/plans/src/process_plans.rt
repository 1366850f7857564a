//! The plans of the calls on processes.
ghost use Rattle.std.specs.Prelude.{◌≡◌};
ghost use Rattle.plans.specs.Plans.{checked_fork};

use crate::plan::Plan;
use crate::records::{bare_target, subject};
use policy::place::Place;
use policy::record::Record;
use policy::refusal::Refusal;
use policy::words::{Kind, Request};
use tables::change::Change;
use tables::tables::Tables;

pub(crate) fn plan_fork(tables: &Tables, seat: u64, new: u64) -> Result<Plan, Refusal>
    ensures { result ≡ checked_fork tables.now seat new }
{
    let seat = Place::numbered(seat, 1)?;
    let new = Place::<32>::numbered(new, 2)?;
    let process = tables.processes[usize::from(seat)]
        .as_ref()
        .ok_or(Refusal::SeatEmpty)?;
    if tables.processes[usize::from(new)].is_some() {
        return Err(Refusal::SeatTaken);
    }
    let clone = Record {
        request: Request::Clone,
        subject: subject(tables, seat, process),
        target: bare_target(None, Kind::NoObject, 0),
    };
    Ok(Plan {
        requests: [None, None, Some(clone)],
        ended: None,
        change: Change::Seat {
            seat: new,
            process: Some(*process),
        },
        answer: u64::from(new.number()),
    })
}
