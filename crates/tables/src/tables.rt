//! The tables of users, processes and objects. Their sizes are the vault's bounds, so that nothing is ever allocated.
ghost use Rattle.std.specs.Prelude.{◌≡◌};

use policy::place::Place;
use policy::words::{Category, DataType, IntegrityRole, Kind, ProgramType, SystemRole};

/// Who may enter, up to which label, and with which roles.
#[derive(Clone, Copy)]
pub struct User {
    /// the label up to which the user is cleared
    pub approval: u64,
    pub role: SystemRole,
    pub integrity: IntegrityRole,
}

/// How an object may be held, numbered from 1.
#[derive(Clone, Copy)]
pub enum Mode {
    Read = 1,
    Write,
    ReadWrite,
}

impl Mode {
    /// Every mode, by number.
    pub const ALL: [Mode; 3] = [Mode::Read, Mode::Write, Mode::ReadWrite];
}

/// The set of modes in which one object is held: three truths and no array, since each is read by name.
#[derive(Clone, Copy)]
pub struct Modes {
    pub read: bool,
    pub write: bool,
    pub both: bool,
}

impl Modes {
    ghost use Rattle.tables.specs.Tables.{has_mode};

    pub const NONE: Modes = Modes {
        read: false,
        write: false,
        both: false,
    };

    /// Whether the mode is in the set.
    pub fn has(self, mode: Mode) -> bool
        ensures { result ≡ has_mode self mode }
    {
        match mode {
            Mode::Read => self.read,
            Mode::Write => self.write,
            Mode::ReadWrite => self.both,
        }
    }
}

/// A running program: whom it acts for, its label, its type, and what it holds of each object.
#[derive(Clone, Copy)]
pub struct Process {
    pub owner: Place<16>,
    pub label: u64,
    /// the type of the process, which is that of the program it runs
    pub runs: ProgramType,
    pub holds: [Modes; 64],
}

/// A file, a directory or an ipc object.
#[derive(Clone, Copy)]
pub struct Object {
    pub kind: Kind,
    /// the directory that it stands in, if there is one
    pub home: Option<Place<64>>,
    pub label: u64,
    pub category: Category,
    pub program: ProgramType,
    pub content: DataType,
    pub length: u32,
}

impl Object {
    /// The kinds that an object may have, numbered from 1.
    pub const KINDS: [Kind; 3] = [Kind::File, Kind::Directory, Kind::Ipc];
}

/// The three tables: users, the process in each seat, objects.
#[derive(Drop)]
pub struct Tables {
    pub users: [Option<User>; 16],
    pub processes: [Option<Process>; 32],
    pub objects: [Option<Object>; 64],
}
