//! Why something is not taken, and the number that tells it.
ghost use Rattle.std.specs.Prelude.{◌≡◌};
ghost use Rattle.policy.specs.Refusals.{refusal_code};

use crate::words::Request;

#[derive(Clone, Copy, Debug, PartialEq, Eq)]
pub enum Refusal {
    /// A number is outside its range: the first such position among the numbers given, counted from 1.
    OutOfRange { position: u8 },
    SeatEmpty,
    SeatTaken,
    NoSuchUser,
    ObjectUnused,
    ObjectInUse,
    /// The home is neither 0 nor a directory in use.
    NoSuchHome,
    /// Some seat holds the object.
    Held,
    /// Some object in use has it for its home.
    HomeOfAnother,
    /// The process does not hold the object in the mode that is needed.
    NotHeldSo,
    /// The process holds the object in that mode already.
    HeldSoAlready,
    /// It is not a file, which alone can be executed, or it is a directory, which cannot be opened.
    WrongKind,
    /// What is to be added stands already.
    SetTwice,
    /// The cell that a chain is to begin or to go on with does not stand.
    CellNotSet,
    /// A policy says NO to a request.
    Denied { request: Request, policy: u8 },
    /// A policy has no rule for a request.
    Undefined { request: Request, policy: u8 },
}

/// A refusal as a log has it: its number and the two values that it names. A log has numbers only, so 0 stands where it names none.
#[derive(Clone, Copy, Debug, PartialEq, Eq)]
pub struct RefusalCode {
    pub number: u8,
    pub first: u8,
    pub second: u8,
}

impl From<Refusal> for RefusalCode {
    ghost from_gives = { λ refusal code. code ≡ refusal_code refusal };

    fn from(refusal: Refusal) -> RefusalCode {
        let (number, first, second) = match refusal {
            Refusal::OutOfRange { position } => (3, position, 0),
            Refusal::SeatEmpty => (11, 0, 0),
            Refusal::SeatTaken => (12, 0, 0),
            Refusal::NoSuchUser => (13, 0, 0),
            Refusal::ObjectUnused => (14, 0, 0),
            Refusal::ObjectInUse => (15, 0, 0),
            Refusal::NoSuchHome => (16, 0, 0),
            Refusal::Held => (17, 0, 0),
            Refusal::HomeOfAnother => (18, 0, 0),
            Refusal::NotHeldSo => (19, 0, 0),
            Refusal::HeldSoAlready => (20, 0, 0),
            Refusal::WrongKind => (21, 0, 0),
            Refusal::SetTwice => (22, 0, 0),
            Refusal::CellNotSet => (23, 0, 0),
            Refusal::Denied { request, policy } => (51, u8::from(request), policy),
            Refusal::Undefined { request, policy } => (52, u8::from(request), policy),
        };
        RefusalCode {
            number,
            first,
            second,
        }
    }
}
