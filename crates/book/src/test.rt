ghost use Rattle.std.specs.Prelude.{◌≡◌};
ghost use Rattle.book.specs.Tests.{unless};

use fields::{Ground, Refusal};

// Refuses on this ground and at this place unless the test came out true.
pub fn test(passed: bool, ground: Ground, place: usize) -> Result<(), Refusal>
    ensures { result ≡ unless passed ground place }
{
    if passed {
        Ok(())
    } else {
        Err(ground.at(place))
    }
}
