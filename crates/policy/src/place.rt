//! A place in a table, which is within the table by its type.
ghost use Rattle.std.specs.Prelude.{◌≡◌, ◌<◌};

/// One of `N` places, counted from 0. Its number, as people give it, counts from 1.
#[derive(Clone, Copy, PartialEq, Eq, PartialOrd, Ord)]
pub struct Place<const N: u8> {
    pub index: u8,
    ghost within: { index < N },
}

/// Its index, with which a table is looked into.
impl<const N: u8> From<Place<N>> for usize {
    ghost from_gives = { λ place index. index ≡ place.index };

    fn from(place: Place<N>) -> usize {
        usize::from(place.index)
    }
}
