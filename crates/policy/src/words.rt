//! The words of a question to a policy and of its answer, each with its number.
ghost use Rattle.std.specs.Prelude.{◌≡◌, ◌≤◌};
ghost use Rattle.policy.specs.Words.{request_number, kind_number, verdict_number, yes_or_no, grants};

/// What a process asks for, numbered from 1.
#[derive(Clone, Copy, Debug, PartialEq, Eq)]
pub enum Request {
    Alias = 1,
    Alter,
    ChangeOwner,
    ChangeRole,
    Clone,
    Create,
    Delete,
    DeleteData,
    Execute,
    GetPermissionsData,
    GetStatusData,
    ModifyAccessData,
    ModifyAttribute,
    ModifyPermissionsData,
    Read,
    ReadAttribute,
    ReadWriteOpen,
    ReadOpen,
    Search,
    SendSignal,
    Terminate,
    Trace,
    Write,
    WriteOpen,
    Enter,
}

/// What the request is made on: no object, an object of a kind, or an object's control data (scd).
#[derive(Clone, Copy, Debug, PartialEq, Eq)]
pub enum Kind {
    NoObject,
    File,
    Directory,
    Ipc,
    ControlData,
}

/// What a user is to the machine.
#[derive(Clone, Copy, Debug, PartialEq, Eq)]
pub enum SystemRole {
    User,
    SecurityOfficer,
    Administrator,
}

/// What a user is to the constrained items: who runs or who manages transformation procedures (TP) or verification
/// procedures (IVP), or neither.
#[derive(Clone, Copy, Debug, PartialEq, Eq)]
pub enum IntegrityRole {
    Nil,
    TpUser,
    TpManager,
    IvpUser,
    IvpManager,
}

/// The type of a program, and of a process by the program that it runs: none, a transformation procedure, a
/// verification procedure, or a procedure on integrity-control data.
#[derive(Clone, Copy, Debug, PartialEq, Eq)]
pub enum ProgramType {
    Nil,
    Tp,
    Ivp,
    Tpicd,
}

/// Whom an object is for.
#[derive(Clone, Copy, Debug, PartialEq, Eq)]
pub enum Category {
    General,
    Security,
    System,
}

/// The type of an object's data: none, a constrained item, integrity-control data, or security information.
#[derive(Clone, Copy, Debug, PartialEq, Eq)]
pub enum DataType {
    Nil,
    Cdi,
    Cdiic,
    Si,
}

/// What a policy says: it does not care, it consents, it denies, or it has no rule for such a question.
#[derive(Clone, Copy, Debug, PartialEq, Eq, PartialOrd, Ord)]
pub enum Verdict {
    DontCare,
    Yes,
    No,
    Undefined,
}

impl Request {
    /// Every request, by number.
    pub const ALL: [Request; 25] = [
        Request::Alias,
        Request::Alter,
        Request::ChangeOwner,
        Request::ChangeRole,
        Request::Clone,
        Request::Create,
        Request::Delete,
        Request::DeleteData,
        Request::Execute,
        Request::GetPermissionsData,
        Request::GetStatusData,
        Request::ModifyAccessData,
        Request::ModifyAttribute,
        Request::ModifyPermissionsData,
        Request::Read,
        Request::ReadAttribute,
        Request::ReadWriteOpen,
        Request::ReadOpen,
        Request::Search,
        Request::SendSignal,
        Request::Terminate,
        Request::Trace,
        Request::Write,
        Request::WriteOpen,
        Request::Enter,
    ];
}

impl Kind {
    /// Every kind, by number.
    pub const ALL: [Kind; 5] = [
        Kind::NoObject,
        Kind::File,
        Kind::Directory,
        Kind::Ipc,
        Kind::ControlData,
    ];
}

impl SystemRole {
    /// Every system role, by number.
    pub const ALL: [SystemRole; 3] = [
        SystemRole::User,
        SystemRole::SecurityOfficer,
        SystemRole::Administrator,
    ];
}

impl IntegrityRole {
    /// Every integrity role, by number.
    pub const ALL: [IntegrityRole; 5] = [
        IntegrityRole::Nil,
        IntegrityRole::TpUser,
        IntegrityRole::TpManager,
        IntegrityRole::IvpUser,
        IntegrityRole::IvpManager,
    ];
}

impl ProgramType {
    /// Every type of a program, by number.
    pub const ALL: [ProgramType; 4] = [
        ProgramType::Nil,
        ProgramType::Tp,
        ProgramType::Ivp,
        ProgramType::Tpicd,
    ];
}

impl Category {
    /// Every category, by number.
    pub const ALL: [Category; 3] = [Category::General, Category::Security, Category::System];
}

impl DataType {
    /// Every type of data, by number.
    pub const ALL: [DataType; 4] = [DataType::Nil, DataType::Cdi, DataType::Cdiic, DataType::Si];
}

impl Verdict {
    /// YES where the condition holds, else NO. It is no `From`, which would not say which is which.
    pub fn yes_if(holds: bool) -> Verdict
        ensures { result ≡ yes_or_no holds }
    {
        if holds { Verdict::Yes } else { Verdict::No }
    }

    /// Whether a request with this verdict is granted: who does not care does not stand in the way.
    pub fn grants(self) -> bool
        ensures { result ≡ grants self }
    {
        match self {
            Verdict::DontCare | Verdict::Yes => true,
            Verdict::No | Verdict::Undefined => false,
        }
    }
}

// An impl for each type, by `as`, which is how an enum gives its number: `From` cannot be given to all words at once, since it is not this crate's, and a
// trait of its own would need as many.

/// Its number, 1 to 25.
impl From<Request> for u8 {
    ghost from_gives = { λ request number. (number ≡ request_number request) × ((1 ≤ number) × (number ≤ 25)) };

    fn from(request: Request) -> u8 {
        request as u8
    }
}

/// Its number, 0 to 4.
impl From<Kind> for u8 {
    ghost from_gives = { λ kind number. (number ≡ kind_number kind) × (number ≤ 4) };

    fn from(kind: Kind) -> u8 {
        kind as u8
    }
}

/// Its number, 0 to 3.
impl From<Verdict> for u8 {
    ghost from_gives = { λ verdict number. number ≡ verdict_number verdict };

    fn from(verdict: Verdict) -> u8 {
        verdict as u8
    }
}
