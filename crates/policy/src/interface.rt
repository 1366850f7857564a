//! What every policy offers: it judges a record, and it notes one that was granted.
ghost use Rattle.std.specs.Prelude.{◌≡◌, ℕ, List, [], ◌∷◌, map};
ghost use Rattle.policy.specs.declared.record.Record.{Record};
ghost use Rattle.policy.specs.declared.words.Verdict.{Verdict};
ghost use Rattle.policy.specs.declared.words.Verdict.TheVariants.{DontCare};
ghost use Rattle.policy.specs.Leaves.{Leaf, Judged, moved, steady, silent, says, answered};

use crate::record::Record;
use crate::words::Verdict;

/// A policy. It means a list of leaves: each has a number, and a book that gives its verdict on every record after any
/// records noted from now on.
pub trait Policy {
    ghost leaves: { Self → List Leaf };

    /// The verdicts of the leaves, joined, and the number of a leaf that says so: 0 where none cares. It is a pair, since a stack
    /// joins pairs, and a number, since other leaves may come.
    fn judge(&self, access: &Record) -> (Verdict, u8)
        ensures { Judged (leaves self.now) access.now result };

    /// Moves each leaf's book on by the record.
    fn note(&mut self, access: &Record)
        ensures { leaves self.new ≡ map (moved access.now) (leaves self.old) };
}

/// A policy of one leaf that remembers nothing: its number, and its verdict on every record.
pub trait Rule {
    ghost NUMBER: { ℕ };

    ghost says: { Self → Record → Verdict };

    const NUMBER: u8;

    fn verdict(&self, access: &Record) -> Verdict
        ensures { result ≡ says self.now access.now };
}

impl<R: Rule> Policy for R {
    ghost leaves = { λ rule. steady R.NUMBER (R.says rule) ∷ [] };

    fn judge(&self, access: &Record) -> (Verdict, u8) {
        self.verdict(access).by(R::NUMBER)
    }

    fn note(&mut self, _access: &Record) {}
}

impl Verdict {
    /// The answer of one leaf: its verdict, and its number where it cares.
    pub fn by(self, leaf: u8) -> (Verdict, u8)
        ensures { result ≡ answered self leaf }
    {
        match self {
            Verdict::DontCare => (self, 0),
            _ => (self, leaf),
        }
    }
}

/// The policy that never cares.
#[derive(Clone, Copy)]
pub struct Silent;

impl Rule for Silent {
    ghost NUMBER = { silent.number };

    ghost says = { λ _. says silent };

    const NUMBER: u8 = 0;

    fn verdict(&self, _access: &Record) -> Verdict {
        Verdict::DontCare
    }
}
