//! Security information: only the security officer changes it.
ghost use Rattle.policy.specs.Leaves.{says};
ghost use Rattle.roles.specs.Roles.{security_information_leaf};

use policy::interface::Rule;
use policy::record::Record;
use policy::words::{DataType, SystemRole, Verdict};

#[derive(Clone, Copy)]
pub struct SecurityInformation;

impl Rule for SecurityInformation {
    ghost NUMBER = { security_information_leaf.number };

    ghost says = { λ _. says security_information_leaf };

    const NUMBER: u8 = 4;

    fn verdict(&self, access: &Record) -> Verdict {
        // By number and range, as the lines are listed: the definition goes by names, so the two cannot share a slip.
        match u8::from(access.request) {
            4 | 13 => Verdict::Undefined,
            1..=3 | 6..=8 | 12 | 14 | 17 | 23..=24 if access.target.content == DataType::Si =>
                Verdict::yes_if(access.subject.role == SystemRole::SecurityOfficer),
            _ => Verdict::DontCare,
        }
    }
}
