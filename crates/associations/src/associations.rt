//! The table of associations: 32 rows and 128 cells, each set once or never.
ghost use Rattle.std.specs.Prelude.{◌≡◌};
ghost use Rattle.policy.specs.Refusals.{Added};
ghost use Rattle.associations.specs.Associations.{none_set, stands, added_cell, added_row, cell_at, row_lists};

use crate::rows::{Cell, Row};
use policy::place::Place;
use policy::refusal::Refusal;
use std::iter;

#[derive(Drop)]
pub struct Associations {
    // arrays, since nothing may be allocated
    rows: [Option<Row>; 32],
    cells: [Option<Cell>; 128],
}

impl Associations {
    /// How many cells there are, and so the most that a chain may have.
    const CELLS: usize = 128;

    /// No row and no cell.
    pub fn new() -> Associations
        ensures { result ≡ none_set }
    {
        Associations {
            rows: [None; 32],
            cells: [None; 128],
        }
    }

    /// Sets a cell to an item and the next cell of the chain, 0 where the chain ends; a chain only goes up.
    pub fn add_cell(&mut self, cell: u64, item: u64, next: u64) -> Result<(), Refusal>
        ensures { Added self.old (added_cell self.old cell item next) result self.new }
    {
        let cell = Place::numbered(cell, 1)?;
        let item = Place::numbered(item, 2)?;
        let next = Place::numbered_or_none(next, 3)?;
        if next.is_some_and(|next| next <= cell) {
            return Err(Refusal::OutOfRange { position: 3 });
        }
        if self.cells[usize::from(cell)].is_some() {
            return Err(Refusal::SetTwice);
        }
        if !self.has_chain_at(next) {
            return Err(Refusal::CellNotSet);
        }
        self.cells[usize::from(cell)] = Some(Cell { item, next });
        Ok(())
    }

    /// Sets a row to a user, a procedure and the head of a chain, 0 for an empty one.
    pub fn add_row(&mut self, row: u64, user: u64, procedure: u64, head: u64) -> Result<(), Refusal>
        ensures { Added self.old (added_row self.old row user procedure head) result self.new }
    {
        let row = Place::<32>::numbered(row, 1)?;
        let user = Place::numbered(user, 2)?;
        let procedure = Place::numbered(procedure, 3)?;
        let head = Place::numbered_or_none(head, 4)?;
        if self.rows[usize::from(row)].is_some() {
            return Err(Refusal::SetTwice);
        }
        if !self.has_chain_at(head) {
            return Err(Refusal::CellNotSet);
        }
        self.rows[usize::from(row)] = Some(Row {
            user,
            procedure,
            head,
        });
        Ok(())
    }

    /// The rows, by place.
    pub fn rows(&self) -> [Option<Row>; 32]
        ensures { result ≡ self.now.rows }
    {
        self.rows
    }

    /// Whether the row lists the item: its chain is walked, of which no cell can come twice. A row without a chain is answered first, since to
    /// begin a walk costs more.
    pub fn lists(&self, row: &Row, item: Place<64>) -> bool
        ensures { result ≡ row_lists self.now.cells row.now item }
    {
        row.head.is_some()
            && iter::successors(row.head, |place| self.cell(Some(*place))?.next)
                .take(Self::CELLS)
                .any(|place| self.cell(Some(place)).is_some_and(|cell| cell.item == item))
    }

    /// The cell at which a chain begins or goes on, if there is one.
    fn cell(&self, place: Option<Place<128>>) -> Option<Cell>
        ensures { result ≡ cell_at self.now.cells place }
    {
        self.cells[usize::from(place?)]
    }

    /// Whether a chain may begin or go on at the cell: it stands, or the chain ends.
    fn has_chain_at(&self, place: Option<Place<128>>) -> bool
        ensures { result ≡ stands self.now.cells place }
    {
        place.is_none() || self.cell(place).is_some()
    }
}
