//! The label policy: mandatory labels, over any label order.
ghost use Rattle.std.specs.Prelude.{◌≡◌};
ghost use Rattle.policy.specs.Leaves.{says};
ghost use Rattle.label_policies.specs.LabelTable.{rows};
ghost use Rattle.label_policies.specs.LabelPolicy.{ruled, label_verdict, label_number, label_leaf};
ghost use Rattle.label_policies.specs.Flows.{LearnerDominates, ChangedDominates};

use crate::label_table::{Condition, condition_of};
use labels::order::LabelOrder;
use policy::interface::Rule;
use policy::record::Record;
use policy::words::{Kind, Request, Verdict};

/// The label policy over an order.
#[derive(Drop)]
pub struct MandatoryLabels<O> {
    pub order: O,
}

impl<O: LabelOrder> Rule for MandatoryLabels<O> {
    ghost NUMBER = { label_number };

    ghost says = { λ labels. says (label_leaf (O.meaning labels.order)) };

    const NUMBER: u8 = 1;

    fn verdict(&self, access: &Record) -> Verdict {
        label_verdict(
            &self.order,
            access.request,
            access.target.kind,
            access.subject.label,
            access.target.label,
        )
    }
}

/// What the label policy says of a request by a process with one label on an object with another.
/// Where it says YES, whoever learns dominates what it learns of, and what is changed dominates whoever changes it.
/// Its parameters, which are no struct, show that it goes by nothing else.
pub fn label_verdict<O: LabelOrder>(
    order: &O,
    request: Request,
    kind: Kind,
    process: u64,
    object: u64,
) -> Verdict
    ensures value { result ≡ label_verdict rows (O.meaning order.now) request kind process object }
    ensures learned { LearnerDominates (O.meaning order.now) request kind process object result }
    ensures changed { ChangedDominates (O.meaning order.now) request kind process object result }
{
    ruling(order, condition_of(request, kind), process, object)
}

/// What a row says of two labels, and UNDEFINED where there is no row or an unlawful label would be compared.
fn ruling<O: LabelOrder>(
    order: &O,
    condition: Option<Condition>,
    process: u64,
    object: u64,
) -> Verdict
    ensures { result ≡ ruled (O.meaning order.now) condition process object }
{
    match condition {
        None => Verdict::Undefined,
        Some(Condition::Free) => Verdict::Yes,
        Some(_) if !(order.is_lawful(process) && order.is_lawful(object)) => Verdict::Undefined,
        Some(Condition::Equal) => Verdict::yes_if(process == object),
        Some(Condition::Dominates) => Verdict::yes_if(order.dominates(process, object)),
    }
}
