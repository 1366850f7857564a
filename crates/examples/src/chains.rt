//! Three chains of two items each: {1, 2}, {1, 3} and {2, 3}.
ghost use Rattle.std.specs.Prelude.{◌≡◌, Ok};
ghost use Rattle.examples.specs.Chains.{three_chains};

use associations::associations::Associations;
use policy::refusal::Refusal;

/// User 1 may run procedure 10 on each of the three chains.
pub fn three_chains() -> Result<Associations, Refusal>
    ensures { result ≡ three_chains }
{
    let mut associations = Associations::new();
    associations.add_cell(2, 2, 0)?;
    associations.add_cell(1, 1, 2)?;
    associations.add_cell(4, 3, 0)?;
    associations.add_cell(3, 1, 4)?;
    associations.add_cell(6, 3, 0)?;
    associations.add_cell(5, 2, 6)?;
    associations.add_row(1, 1, 10, 1)?;
    associations.add_row(2, 1, 10, 3)?;
    associations.add_row(3, 1, 10, 5)?;
    Ok(associations)
}
