//! Compartments: a label is a level and a set of members.
ghost use Rattle.std.specs.Prelude.{◌≡◌};
ghost use Rattle.labels.specs.Orders.{compartments, contains, level};
ghost use Rattle.labels.specs.Laws.{compartments_laws};

use crate::order::LabelOrder;

/// Codes level × 65,536 + set, the level 0 to 255 and the set one of 16 members.
#[derive(Clone, Copy)]
pub struct Compartments;

const LEVELS: u64 = 256;

const SETS: u64 = 65536;

fn level(code: u64) -> u64
    ensures { result ≡ level code }
{
    code / SETS
}

/// Whether each member of `b`'s set is in `a`'s.
fn contains(a: u64, b: u64) -> bool
    ensures { result ≡ contains a b }
{
    (a & b) % SETS == b % SETS
}

impl LabelOrder for Compartments {
    ghost meaning = { λ _. compartments };

    ghost laws = { λ s. compartments_laws };

    fn is_lawful(&self, code: u64) -> bool {
        level(code) < LEVELS
    }

    fn dominates(&self, a: u64, b: u64) -> bool {
        level(a) < LEVELS && level(b) <= level(a) && contains(a, b)
    }
}
