//! A set of the rows of associations, by their places, as the bits of one number.
ghost use Rattle.std.specs.Prelude.{◌≡◌, ℕ, false, ◌&&◌, ◌||◌, ◌==◌};
ghost use Rattle.triples.specs.RowSets.{has, no_rows, any_below};

use policy::place::Place;

#[derive(Clone, Copy)]
pub(crate) struct RowSet {
    // a bit for each place, so that narrowing is one `&`
    bits: u32,
}

impl RowSet {
    /// No row.
    pub(crate) fn none() -> RowSet
        ensures made { result ≡ no_rows }
        ensures empty { (k : ℕ) → has result k ≡ false }
    {
        RowSet { bits: 0 }
    }

    /// The rows that are in both.
    pub(crate) fn both(self, other: RowSet) -> RowSet
        ensures { (k : ℕ) → has result k ≡ (has self k && has other k) }
    {
        RowSet {
            bits: self.bits & other.bits,
        }
    }

    /// The same with one row more.
    pub(crate) fn with(self, place: Place<32>) -> RowSet
        ensures { (k : ℕ) → has result k ≡ (k == place.index || has self k) }
    {
        RowSet {
            bits: self.bits | (1 << place.index),
        }
    }

    /// Whether some row is in it.
    pub(crate) fn any(self) -> bool
        ensures { result ≡ any_below (has self) 32 }
    {
        self.bits != 0
    }
}
