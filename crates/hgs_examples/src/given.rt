//! What calls give to the tests of this crate.
ghost use Rattle.std.specs.Prelude.{◌≡◌, Ok, IfOk};

use std::test::Fail;

/// What a call gives. The test fails where it gives nothing: to take its fault along, by a `?` alone, takes long to prove.
pub(crate) fn given<T, E: Drop>(answer: Result<T, E>) -> Result<T, Fail>
    ensures { IfOk result (λ value. answer ≡ Ok value) }
{
    match answer {
        Ok(value) => Ok(value),
        Err(_) => Err(Fail::new("a call failed")),
    }
}
