//! The marked examples in words.

/// The mark of an example, and one thing that it asks.
#[derive(Clone, Copy)]
pub struct Question {
    pub mark: u8,
    pub what: &'static str,
}

/// In the order in which `marked_examples` answers them. The answers are no part of a question: they are promised by a contract.
pub const QUESTIONS: [Question; 13] = [
    Question {
        mark: 1,
        what: "compartments: 131,075 dominates 65,537",
    },
    Question {
        mark: 2,
        what: "compartments: 131,074 dominates 65,537",
    },
    Question {
        mark: 2,
        what: "compartments: 65,537 dominates 131,074",
    },
    Question {
        mark: 3,
        what: "a ladder of 4: 3 is lawful",
    },
    Question {
        mark: 3,
        what: "a ladder of 4: 4 is lawful",
    },
    Question {
        mark: 4,
        what: "compartments: 16,777,215 is lawful",
    },
    Question {
        mark: 4,
        what: "compartments: 16,777,216 is lawful",
    },
    Question {
        mark: 5,
        what: "labels: a process at 131,075 opens a file at 65,537 for reading",
    },
    Question {
        mark: 5,
        what: "labels: it opens it for writing",
    },
    Question {
        mark: 6,
        what: "labels: it opens an ipc object for reading",
    },
    Question {
        mark: 7,
        what: "triples: chains {1, 2}, {1, 3}, {2, 3}; after items 2 and 3 a procedure opens item 1",
    },
    Question {
        mark: 8,
        what: "security information: a user opens it for writing",
    },
    Question {
        mark: 8,
        what: "security information: a user opens it for reading",
    },
];
