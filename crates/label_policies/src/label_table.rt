//! The label table: what each request on each kind of object needs of the two labels.
ghost use Rattle.std.specs.Prelude.{◌≡◌};
ghost use Rattle.label_policies.specs.LabelTable.{rows, laid_out, condition_in};

use policy::words::{Kind, Request};

/// What a row needs of the process's label and the object's.
#[derive(Clone, Copy)]
pub enum Condition {
    /// Nothing: the labels are not looked at.
    Free,
    /// The two labels are equal.
    Equal,
    /// The process's label dominates the object's.
    Dominates,
}

/// A row of the table.
#[derive(Clone, Copy)]
pub struct Row {
    pub request: Request,
    pub kind: Kind,
    pub condition: Condition,
}

const NONE: Option<Condition> = None;

const FREE: Option<Condition> = Some(Condition::Free);

const SAME: Option<Condition> = Some(Condition::Equal);

const OVER: Option<Condition> = Some(Condition::Dominates);

// A line for each request, by number; in it a place for each kind: no object, file, directory, ipc, control data.
const CONDITIONS: [[Option<Condition>; 5]; 25] = [
    [NONE, NONE, NONE, NONE, NONE], // alias
    [NONE, NONE, NONE, SAME, NONE], // alter
    [NONE, NONE, NONE, NONE, SAME], // change-owner
    [NONE, NONE, NONE, NONE, NONE], // change-role
    [FREE, NONE, NONE, NONE, NONE], // clone
    [NONE, SAME, SAME, SAME, SAME], // create
    [NONE, SAME, SAME, SAME, SAME], // delete
    [NONE, SAME, NONE, NONE, NONE], // delete-data
    [NONE, OVER, NONE, NONE, NONE], // execute
    [NONE, NONE, NONE, NONE, OVER], // get-permissions-data
    [NONE, NONE, NONE, NONE, OVER], // get-status-data
    [NONE, NONE, NONE, NONE, SAME], // modify-access-data
    [NONE, NONE, NONE, NONE, NONE], // modify-attribute
    [NONE, NONE, NONE, NONE, SAME], // modify-permissions-data
    [NONE, FREE, OVER, FREE, NONE], // read
    [NONE, NONE, NONE, NONE, NONE], // read-attribute
    [NONE, SAME, NONE, SAME, NONE], // read&write-open
    [NONE, OVER, NONE, NONE, NONE], // read-open
    [NONE, NONE, OVER, NONE, NONE], // search
    [SAME, NONE, NONE, NONE, NONE], // send-signal
    [NONE, NONE, NONE, NONE, NONE], // terminate
    [NONE, NONE, NONE, NONE, NONE], // trace
    [NONE, FREE, SAME, FREE, NONE], // write
    [NONE, SAME, NONE, NONE, NONE], // write-open
    [OVER, NONE, NONE, NONE, NONE], // enter
];

/// The table, which is the one that the rows give: all 125 places are computed and compared.
fn conditions() -> &'static [[Option<Condition>; 5]; 25]
    ensures { result.now ≡ laid_out rows }
{
    &CONDITIONS
}

/// What the row of a request and a kind needs, or none where there is no such row. Callers have the two apart, so they are two arguments.
pub fn condition_of(request: Request, kind: Kind) -> Option<Condition>
    ensures { result ≡ condition_in rows request kind }
{
    let number = u8::from(request);
    let column = u8::from(kind);
    conditions()[usize::from(number - 1)][usize::from(column)]
}
