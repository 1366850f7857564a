//! Two policies as one.
ghost use Rattle.std.specs.Prelude.{◌≡◌, ◌++◌};
ghost use Rattle.policy.specs.Leaves.{prevailing};

use crate::interface::Policy;
use crate::record::Record;
use crate::words::Verdict;

/// The leaves of the first, then those of the second.
#[derive(Drop)]
pub struct Stack<A, B> {
    pub first: A,
    pub second: B,
}

impl<A: Policy, B: Policy> Policy for Stack<A, B> {
    ghost leaves = { λ s. A.leaves s.first ++ B.leaves s.second };

    fn judge(&self, access: &Record) -> (Verdict, u8) {
        stronger(self.first.judge(access), self.second.judge(access))
    }

    fn note(&mut self, access: &Record) {
        self.first.note(access);
        self.second.note(access);
    }
}

/// Joins two answers pairwise: the greater verdict with the leaf that it names, the first where they are equal.
fn stronger(first: (Verdict, u8), second: (Verdict, u8)) -> (Verdict, u8)
    ensures { result ≡ prevailing first second }
{
    if first.0 < second.0 { second } else { first }
}
