// A side of a trade.
ghost use Rattle.std.specs.Prelude.{◌≡◌, false};
ghost use Rattle.rows.specs.Allocations.{is_empty};
ghost use Rattle.book.specs.Tests.{Judges};
ghost use Rattle.book.specs.Verdicts.{empty_verdict, on_side_verdict, side_verdict};
ghost use Rattle.standing.specs.Standing.{Free, StandsFree};

use crate::trades::trade_stands;
use book::test::test;
use fields::{Ground, Intermediation, Refusal, Side};
use rows::{Allocation, Trade, party_of};

// 13, 14, 15: the side is the caller's, is not confirmed, and is held by no intermediation.
#[tactic(auto, unfolding(book::specs::Verdicts::side_verdict))]
pub fn side_free(place: usize, caller: u32, side: Side, trade: &Trade) -> Result<(), Refusal>
    ensures { Judges (side_verdict place caller side trade.now) (λ _. Free side trade.now) result }
{
    let owner = party_of(&trade.terms, side).participant;
    test(owner == caller, Ground::NotOwner, place)?;
    test(
        !trade.side(side).is_confirmed(),
        Ground::AlreadyConfirmed,
        place,
    )?;
    test(trade.side(side).tie == 0, Ground::SideTied, place)
}

// 16: the side holds something.
#[tactic(auto, unfolding(book::specs::Verdicts::empty_verdict))]
pub fn side_filled(side: &Allocation) -> Result<(), Refusal>
    ensures { Judges (empty_verdict side.now.state) (λ _. is_empty side.now.state ≡ false) result }
{
    test(!side.is_empty(), Ground::SideEmpty, 0)
}

// 7, 8, 9, 11, 13, 14, 15: the trade with this number stands, and its side is free for the caller.
// Answers the place of the trade, and its chain.
#[tactic(auto, unfolding(book::specs::Verdicts::on_side_verdict))]
pub fn side_stands(
    day: u32,
    minute: u32,
    caller: u32,
    trades: &[Trade],
    intermediations: &[Intermediation],
    number: u32,
    side: Side,
) -> Result<(usize, (usize, usize, usize, usize)), Refusal>
    ensures { Judges (on_side_verdict day minute caller trades.now intermediations.now number side) (StandsFree trades.now intermediations.now number side) result }
{
    let (at, chain) = trade_stands(0, day, minute, trades, intermediations, number)?;
    side_free(0, caller, side, &trades[at])?;
    Ok((at, chain))
}
