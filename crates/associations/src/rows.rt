//! The parts of which associations are made.
use policy::place::Place;

/// A user may run a procedure on the items of a chain of cells, which begins at the head; on none where there is no head.
#[derive(Clone, Copy)]
pub struct Row {
    pub user: Place<16>,
    pub procedure: Place<64>,
    pub head: Option<Place<128>>,
}

/// An item of a chain, and the cell with which the chain goes on, if it does. It is a place in the table of cells and not a `Box`:
/// nothing may be allocated, and set-up gives cells by their numbers.
#[derive(Clone, Copy)]
pub struct Cell {
    pub item: Place<64>,
    pub next: Option<Place<128>>,
}
