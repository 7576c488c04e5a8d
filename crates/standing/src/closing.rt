// The closing of a day.
ghost use Rattle.book.specs.Tests.{Judges};
ghost use Rattle.book.specs.Verdicts.{closing_verdict};

use book::test::test;
use fields::{Ground, Refusal};
use requests::Closing;

// 12: late enough, and to a later day.
#[tactic(auto, unfolding(book::specs::Verdicts::closing_verdict))]
pub fn closing_passes(day: u32, request: &Closing) -> Result<(), Refusal>
    ensures { Judges (closing_verdict day request.now) (λ _. Unit {0}) result }
{
    test(
        1_201 <= request.minute && day < request.day,
        Ground::NoClosing,
        0,
    )
}
