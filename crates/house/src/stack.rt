//! The stack of four: functional control, security information, triples, labels.
ghost use Rattle.std.specs.Prelude.{◌≡◌};
ghost use Rattle.house.specs.Stacks.{house_leaves, new_leaves, Heard};

use associations::associations::Associations;
use label_policies::label_policy::MandatoryLabels;
use labels::order::LabelOrder;
use policy::interface::Policy;
use policy::record::Record;
use policy::stack::Stack;
use policy::words::Verdict;
use roles::functional_control::FunctionalControl;
use roles::security_information::SecurityInformation;
use triples::triples::Triples;

pub type HouseStack<O> = Stack<
    FunctionalControl,
    Stack<SecurityInformation, Stack<Triples, MandatoryLabels<O>>>,
>;

/// The four policies, over a label order and over associations as they stand.
pub fn house_stack<O: LabelOrder>(order: O, associations: &Associations) -> HouseStack<O>
    ensures { house_leaves O.meaning result ≡ new_leaves (O.meaning order) associations.now }
{
    Stack {
        first: FunctionalControl,
        second: Stack {
            first: SecurityInformation,
            second: Stack {
                first: Triples::new(associations),
                second: MandatoryLabels { order },
            },
        },
    }
}

/// What each of the four says of a record, and what the stack answers.
#[derive(Clone, Copy)]
pub struct Opinions {
    pub control: Verdict,
    pub information: Verdict,
    pub triples: Verdict,
    pub labels: Verdict,
    pub joined: Verdict,
    pub named: u8,
}

/// Asks each policy of the stack by itself, and then the stack.
pub fn hear<O: LabelOrder>(stack: &HouseStack<O>, access: &Record) -> Opinions
    ensures { Heard (house_leaves O.meaning stack.now) access.now result }
{
    let (control, _) = stack.first.judge(access);
    let (information, _) = stack.second.first.judge(access);
    let (triples, _) = stack.second.second.first.judge(access);
    let (labels, _) = stack.second.second.second.judge(access);
    let (joined, named) = stack.judge(access);
    Opinions {
        control,
        information,
        triples,
        labels,
        joined,
        named,
    }
}
