//! The ladder: its labels are steps, one above the other.
ghost use Rattle.std.specs.Prelude.{◌≡◌, MatchOption};
ghost use Rattle.labels.specs.Orders.{ladder, IsHeight};
ghost use Rattle.labels.specs.Laws.{ladder_laws};

use crate::order::LabelOrder;

/// A ladder of 1 to 256 steps: codes 0 to `steps` - 1, a higher code above a lower.
#[derive(Clone, Copy)]
pub struct Ladder {
    steps: u64,
    ghost height: { IsHeight steps },
}

impl Ladder {
    /// The most steps that a ladder may have.
    pub const MOST: u64 = 256;

    /// The ladder of that many steps, or none where that is not 1 to 256.
    pub fn new(steps: u64) -> Option<Ladder>
        ensures { MatchOption result (IsHeight steps → ⊥) (λ l. l.steps ≡ steps) }
    {
        // An `if`: to a closure of `then` the fact about the height would have to be told again.
        if (1..=Self::MOST).contains(&steps) {
            Some(Ladder { steps })
        } else {
            None
        }
    }
}

impl LabelOrder for Ladder {
    ghost meaning = { λ s. ladder s.steps };

    ghost laws = { λ s. ladder_laws s.steps };

    fn is_lawful(&self, code: u64) -> bool {
        code < self.steps
    }

    fn dominates(&self, a: u64, b: u64) -> bool {
        a < self.steps && b <= a
    }
}
