//! The rows of the label table as a list, to be counted and printed.
ghost use Rattle.std.specs.Prelude.{◌≡◌, ◌++◌, IfOk, OnOk};
ghost use Rattle.label_policies.specs.LabelTable.{rows};
ghost use Rattle.label_policies.specs.Listing.{row_at, rows_of, Listed};

use crate::label_table::{Row, condition_of};
use policy::words::{Kind, Request};
use std::alloc::{AllocError, Global};

/// The rows of the table by request, and those of one request by kind.
/// There are 29 and the one for entering, and no two share a request and kind.
pub fn label_rows(heap: Global) -> Result<Vec<Row>, AllocError>
    ensures { IfOk result (λ v. Listed v.items) }
{
    let mut rows = Vec::new(heap);
    for request in Request::ALL {
        add_rows_of(&mut rows, request)?;
    }
    Ok(rows)
}

/// Adds the rows of one request, by kind.
fn add_rows_of(list: &mut Vec<Row>, request: Request) -> Result<(), AllocError>
    ensures { OnOk result (list.new.items ≡ list.old.items ++ rows_of rows request) }
{
    for kind in Kind::ALL {
        add_row(list, request, kind)?;
    }
    Ok(())
}

/// Adds the row of a request and a kind, if there is one: two arguments, since they come from two loops.
fn add_row(list: &mut Vec<Row>, request: Request, kind: Kind) -> Result<(), AllocError>
    ensures { OnOk result (list.new.items ≡ list.old.items ++ row_at rows request kind) }
{
    if let Some(condition) = condition_of(request, kind) {
        list.push(Row {
            request,
            kind,
            condition,
        })?;
    }
    Ok(())
}
