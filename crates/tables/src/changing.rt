//! Changes of the tables, each of one element in its place.
ghost use Rattle.std.specs.Prelude.{◌≡◌};
ghost use Rattle.tables.specs.Changes.{changed, with_process, with_object, marked, holding, long};

use crate::change::Change;
use crate::tables::{Mode, Modes, Tables};
use policy::place::Place;

impl Tables {
    /// Makes a change.
    pub fn apply(&mut self, change: Change)
        ensures { self.new ≡ changed self.old change }
    {
        match change {
            Change::Nothing => {}
            Change::Seat { seat, process } => self.processes[usize::from(seat)] = process,
            Change::Become { seat, runs } => {
                if let Some(process) = &mut self.processes[usize::from(seat)] {
                    process.runs = runs;
                }
            }
            Change::Hold {
                seat,
                object,
                mode,
                truncate,
            } => {
                if truncate {
                    self.lengthen(object, 0);
                }
                self.hold(seat, object, mode, true);
            }
            Change::LetGo { seat, object, mode } => self.hold(seat, object, mode, false),
            Change::Length { object, length } => self.lengthen(object, length),
            Change::Put { object, thing } => self.objects[usize::from(object)] = thing,
        }
    }

    // Two functions, and not one that lends an element to a closure: that one needs a further clause, a `requires` and a proof file.

    /// The process in a seat holds an object in a mode, or lets it go.
    fn hold(&mut self, seat: Place<32>, object: Place<64>, mode: Mode, held: bool)
        ensures { self.new ≡ with_process self.old seat (holding object mode held) }
    {
        if let Some(process) = &mut self.processes[usize::from(seat)] {
            process.holds[usize::from(object)].mark(mode, held);
        }
    }

    /// An object has a length.
    fn lengthen(&mut self, object: Place<64>, length: u32)
        ensures { self.new ≡ with_object self.old object (long length) }
    {
        if let Some(thing) = &mut self.objects[usize::from(object)] {
            thing.length = length;
        }
    }
}

impl Modes {
    /// Puts a mode into the set or takes it out.
    fn mark(&mut self, mode: Mode, held: bool)
        ensures { self.new ≡ marked mode held self.old }
    {
        match mode {
            Mode::Read => self.read = held,
            Mode::Write => self.write = held,
            Mode::ReadWrite => self.both = held,
        }
    }
}
