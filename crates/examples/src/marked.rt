//! Eight marked examples, which tell a right installation from a wrong one.
ghost use Rattle.std.specs.Prelude.{◌≡◌, List, [], ◌∷◌, Some};
ghost use Rattle.std.specs.Fmt.{padded};
ghost use Rattle.policy.specs.Leaves.{Leaf, joined};
ghost use Rattle.examples.specs.Examples.{answers, answer_words, moved_by, ExamplesHold};

use crate::chains::three_chains;
use crate::records::{BEGIN, DRAWING, HIGH, OPEN_ONE, OPEN_THREE, OPEN_TWO, PLAIN, ROUTER};
use label_policies::label_policy::MandatoryLabels;
use labels::compartments::Compartments;
use labels::ladder::Ladder;
use labels::order::LabelOrder;
use policy::interface::Policy;
use policy::record::{Record, Subject, Target};
use policy::words::{DataType, Kind, Request, Verdict};
use roles::security_information::SecurityInformation;
use std::fmt;
use std::fmt::Display;
use triples::triples::Triples;

/// What an order or a policy answers.
#[derive(Clone, Copy, Debug, PartialEq, Eq)]
pub enum Answer {
    Holds(bool),
    Says(Verdict),
}

impl fmt::Display for Answer {
    ghost output = { λ answer. Some (answer_words answer) };

    ghost styled_output = { λ answer spec. Some (padded spec (answer_words answer)) };

    fn fmt<W: fmt::Write>(&self, f: &mut fmt::Formatter<W>) -> fmt::Result {
        match self {
            Answer::Holds(true) => f.pad("yes"),
            Answer::Holds(false) => f.pad("no"),
            Answer::Says(verdict) => verdict.fmt(f),
        }
    }
}

/// The answers to the thirteen questions of the eight examples, in their order.
pub fn marked_examples() -> [Answer; 13]
    ensures found { result ≡ answers 1 8 }
    ensures defined { ExamplesHold }
{
    let ladder = Ladder::new(4).unwrap();
    let labels = MandatoryLabels {
        order: Compartments,
    };
    [
        Answer::Holds(Compartments.dominates(131_075, 65_537)),
        Answer::Holds(Compartments.dominates(131_074, 65_537)),
        Answer::Holds(Compartments.dominates(65_537, 131_074)),
        Answer::Holds(ladder.is_lawful(3)),
        Answer::Holds(ladder.is_lawful(4)),
        Answer::Holds(Compartments.is_lawful(16_777_215)),
        Answer::Holds(Compartments.is_lawful(16_777_216)),
        Answer::Says(labels.judge(&HIGH_READS).0),
        Answer::Says(labels.judge(&HIGH_WRITES).0),
        Answer::Says(labels.judge(&HIGH_READS_IPC).0),
        third_item(),
        Answer::Says(SecurityInformation.judge(&WRITE_INFORMATION).0),
        Answer::Says(SecurityInformation.judge(&READ_INFORMATION).0),
    ]
}

const HIGH_READS: Record = Record {
    subject: Subject {
        label: HIGH,
        ..ROUTER
    },
    ..PLAIN
};

const HIGH_WRITES: Record = Record {
    request: Request::WriteOpen,
    ..HIGH_READS
};

const HIGH_READS_IPC: Record = Record {
    target: Target {
        kind: Kind::Ipc,
        ..DRAWING
    },
    ..HIGH_READS
};

/// Example 7: the release routine has opened items 2 and 3 of three chains, and asks for item 1.
fn third_item() -> Answer
    ensures { result ∷ [] ≡ answers 7 7 }
{
    let chains = three_chains().unwrap();
    let mut triples = Triples::new(&chains);
    let noted = [BEGIN, OPEN_TWO, OPEN_THREE];
    Answer::Says(verdict_after(&mut triples, &noted, &OPEN_ONE))
}

/// What a policy says of a record after others, the oldest first.
fn verdict_after<P: Policy>(policy: &mut P, noted: &[Record], asked: &Record) -> Verdict
    ensures { (before : List Leaf) → P.leaves policy.old ≡ before → result ≡ joined (moved_by noted.now before) asked.now }
{
    for access in noted {
        policy.note(access);
    }
    policy.judge(asked).0
}

const READ_INFORMATION: Record = Record {
    target: Target {
        content: DataType::Si,
        ..DRAWING
    },
    ..PLAIN
};

const WRITE_INFORMATION: Record = Record {
    request: Request::WriteOpen,
    ..READ_INFORMATION
};
