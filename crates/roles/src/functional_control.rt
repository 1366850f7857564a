//! Functional control: which objects are for which system role.
ghost use Rattle.std.specs.Prelude.{◌≡◌};
ghost use Rattle.policy.specs.Leaves.{says};
ghost use Rattle.roles.specs.Roles.{suits, functional_control_leaf};

use policy::interface::Rule;
use policy::record::Record;
use policy::words::{Category, SystemRole, Verdict};

#[derive(Clone, Copy)]
pub struct FunctionalControl;

impl Rule for FunctionalControl {
    ghost NUMBER = { functional_control_leaf.number };

    ghost says = { λ _. says functional_control_leaf };

    const NUMBER: u8 = 3;

    fn verdict(&self, access: &Record) -> Verdict {
        // By number and range, as the lines are listed: the definition goes by names, so the two cannot share a slip.
        match u8::from(access.request) {
            4 | 13 => Verdict::Undefined,
            5 | 16 | 20..=22 => Verdict::Yes,
            25 => Verdict::DontCare,
            _ => Verdict::yes_if(is_suited(access)),
        }
    }
}

/// Whether the object is for the owner's role.
fn is_suited(access: &Record) -> bool
    ensures { result ≡ suits access.now }
{
    match (access.target.category, access.subject.role) {
        (Category::General, _) => true,
        (Category::Security, SystemRole::SecurityOfficer) => true,
        (Category::System, SystemRole::Administrator) => true,
        _ => false,
    }
}
