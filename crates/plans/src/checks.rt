//! The length that a call is given.
ghost use Rattle.std.specs.Prelude.{◌≡◌};
ghost use Rattle.plans.specs.Checks.{a_length};

use policy::refusal::Refusal;

/// A length, which is below 2^32; else the refusal that names the position of the number. The two are no struct, which would be made only to be
/// taken apart.
pub(crate) fn length_of(number: u64, position: u8) -> Result<u32, Refusal>
    ensures { result ≡ a_length number position }
{
    u32::try_from(number).map_err(|_| Refusal::OutOfRange { position })
}
