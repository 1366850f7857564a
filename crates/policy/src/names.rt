//! What is printed for requests, kinds, verdicts and refusals.
ghost use Rattle.std.specs.Prelude.{◌≡◌, Some};
ghost use Rattle.std.specs.Fmt.{padded};
ghost use Rattle.policy.specs.Names.{request_name, kind_name, verdict_name, refusal_words};

use crate::refusal::Refusal;
use crate::words::{Kind, Request, Verdict};
use std::error::Error;
use std::fmt;

impl Request {
    // A function of its own: within `fmt`, with padding and 25 cases, the proof did not close.
    fn name(self) -> &'static str
        ensures { result.now ≡ request_name self }
    {
        match self {
            Request::Alias => "alias",
            Request::Alter => "alter",
            Request::ChangeOwner => "change-owner",
            Request::ChangeRole => "change-role",
            Request::Clone => "clone",
            Request::Create => "create",
            Request::Delete => "delete",
            Request::DeleteData => "delete-data",
            Request::Execute => "execute",
            Request::GetPermissionsData => "get-permissions-data",
            Request::GetStatusData => "get-status-data",
            Request::ModifyAccessData => "modify-access-data",
            Request::ModifyAttribute => "modify-attribute",
            Request::ModifyPermissionsData => "modify-permissions-data",
            Request::Read => "read",
            Request::ReadAttribute => "read-attribute",
            Request::ReadWriteOpen => "read&write-open",
            Request::ReadOpen => "read-open",
            Request::Search => "search",
            Request::SendSignal => "send-signal",
            Request::Terminate => "terminate",
            Request::Trace => "trace",
            Request::Write => "write",
            Request::WriteOpen => "write-open",
            Request::Enter => "enter",
        }
    }
}

impl fmt::Display for Request {
    ghost output = { λ request. Some (request_name request) };

    ghost styled_output = { λ request spec. Some (padded spec (request_name request)) };

    fn fmt<W: fmt::Write>(&self, f: &mut fmt::Formatter<W>) -> fmt::Result {
        f.pad(self.name())
    }
}

impl fmt::Display for Kind {
    ghost output = { λ kind. Some (kind_name kind) };

    ghost styled_output = { λ kind spec. Some (padded spec (kind_name kind)) };

    fn fmt<W: fmt::Write>(&self, f: &mut fmt::Formatter<W>) -> fmt::Result {
        f.pad(match self {
            Kind::NoObject => "no object",
            Kind::File => "file",
            Kind::Directory => "directory",
            Kind::Ipc => "ipc",
            Kind::ControlData => "scd",
        })
    }
}

impl fmt::Display for Verdict {
    ghost output = { λ verdict. Some (verdict_name verdict) };

    ghost styled_output = { λ verdict spec. Some (padded spec (verdict_name verdict)) };

    fn fmt<W: fmt::Write>(&self, f: &mut fmt::Formatter<W>) -> fmt::Result {
        f.pad(match self {
            Verdict::DontCare => "DC",
            Verdict::Yes => "YES",
            Verdict::No => "NO",
            Verdict::Undefined => "UNDEFINED",
        })
    }
}

impl fmt::Display for Refusal {
    ghost output = { λ refusal. Some (refusal_words refusal) };

    fn fmt<W: fmt::Write>(&self, f: &mut fmt::Formatter<W>) -> fmt::Result {
        match *self {
            Refusal::OutOfRange { position } => write!(
                f,
                "the number at position {position} is outside its range"
            ),
            Refusal::SeatEmpty => f.write_str("the seat is empty"),
            Refusal::SeatTaken => f.write_str("the seat is taken"),
            Refusal::NoSuchUser => f.write_str("there is no such user"),
            Refusal::ObjectUnused => f.write_str("the object is not in use"),
            Refusal::ObjectInUse => f.write_str("the object is in use"),
            Refusal::NoSuchHome => f.write_str("the home is neither 0 nor a directory in use"),
            Refusal::Held => f.write_str("some seat holds the object"),
            Refusal::HomeOfAnother => f.write_str("an object in use has it as its home"),
            Refusal::NotHeldSo => f.write_str("the object is not held in that mode"),
            Refusal::HeldSoAlready => f.write_str("the object is held in that mode already"),
            Refusal::WrongKind => f.write_str("the object is of the wrong kind"),
            Refusal::SetTwice => f.write_str("it is set already"),
            Refusal::CellNotSet => f.write_str("the cell is not set"),
            Refusal::Denied { request, policy } => write!(
                f,
                "{request} is denied (policy {policy})"
            ),
            Refusal::Undefined { request, policy } => write!(
                f,
                "{request} has no rule (policy {policy})"
            ),
        }
    }
}

impl Error for Refusal {}
