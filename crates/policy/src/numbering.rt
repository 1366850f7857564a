//! From numbers to places and words, and back.
ghost use Rattle.std.specs.Prelude.{◌≡◌, ◌-◌, ◌<◌, ◌≤◌, Decides};
ghost use Rattle.policy.specs.Places.{placed, placed_or_none, number_of, word_numbered};

use crate::place::Place;
use crate::refusal::Refusal;

// Number and position are two arguments: `Place::numbered(seat, 1)` says that the seat is the call's first number, and a struct of both would be
// made only to be taken apart. Nor is there a `TryFrom`, whose error could not name the position.

impl<const N: u8> Place<N> {
    /// The place of a number from 1 to `N`; where it is outside, the refusal that names its position.
    pub fn numbered(number: u64, position: u8) -> Result<Place<N>, Refusal>
        ensures { result ≡ placed N number position }
    {
        if is_among(number, 1, u64::from(N)) {
            // `as`, here and below, is proved to lose nothing: `try_from` would have an error that cannot come.
            let index = (number - 1) as u8;
            Ok(Place { index })
        } else {
            Err(Refusal::OutOfRange { position })
        }
    }

    /// The same where 0 stands for no place.
    pub fn numbered_or_none(number: u64, position: u8) -> Result<Option<Place<N>>, Refusal>
        ensures { result ≡ placed_or_none N number position }
    {
        if number == 0 {
            return Ok(None);
        }
        Place::numbered(number, position).map(Some)
    }

    /// Its number, from 1. It is no `From`, since a place is two numbers: this and its index.
    pub fn number(self) -> u8
        ensures { result ≡ number_of self.entry }
    {
        self.index + 1
    }
}

// Two arguments, number and position: a struct of both would be made only to be taken apart.

/// The word of a number, where the words are numbered one by one from the first on; where the number is of none, the
/// refusal that names its position.
pub fn word<W: Copy>(words: &[W], first: u64, number: u64, position: u8) -> Result<W, Refusal>
    ensures { result ≡ word_numbered words.now first number position }
{
    if is_among(number, first, words.len() as u64) {
        Ok(words[(number - first) as usize])
    } else {
        Err(Refusal::OutOfRange { position })
    }
}

/// Whether it is one of so many numbers, counted from the first on.
fn is_among(number: u64, first: u64, count: u64) -> bool
    ensures { Decides result ((first ≤ number) × (number - first < count)) }
{
    number >= first && number - first < count
}
