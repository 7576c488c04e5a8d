// A trade to be captured, and one that is there.
ghost use Rattle.std.specs.Prelude.{◌<◌, ◌≤◌, length};
ghost use Rattle.keyed.specs.Rows.{table};
ghost use Rattle.book.specs.Tests.{Judges};
ghost use Rattle.book.specs.Verdicts.{capture_verdict, trade_verdict};
ghost use Rattle.standing.specs.Standing.{Stands};

use book::test::test;
use chains::follow::follow;
use fields::{Ground, Intermediation, Refusal, Terms};
use keyed::find;
use rows::{Trade, has_key, has_room, is_in_time};

// 5, 6, 10, 11: a trade with these terms can be captured.
#[tactic(auto, unfolding(book::specs::Verdicts::capture_verdict))]
pub fn capturable(
    day: u32,
    minute: u32,
    trades: &[Trade],
    count: usize,
    terms: &Terms,
) -> Result<(), Refusal>
    requires { count ≤ length trades.now }
    ensures { Judges (capture_verdict day minute (table count trades.now) terms.now) (λ _. (count < length trades.now) × (count < 4096)) result }
{
    let present = has_key(&trades[0..count], terms.number as u64);
    test(!present, Ground::TradePresent, 0)?;
    test(has_room(trades, count, 4_096, 1), Ground::TradesFull, 0)?;
    test(day <= terms.settlement, Ground::SettlesBefore, 0)?;
    test(is_in_time(day, minute, terms), Ground::TooLate, 0)
}

// 7, 8, 9, 11: the trade with this number is there, is not cancelled, its chain is not broken, and it is not too late
// for it. Answers the place of the trade, and its chain as `follow` does.
// Day, minute and both tables stay parameters, here and in `side_stands`: a struct would make each clause longer, since the definitions take
// them one by one.
#[tactic(auto, unfolding(book::specs::Verdicts::trade_verdict))]
pub fn trade_stands(
    place: usize,
    day: u32,
    minute: u32,
    trades: &[Trade],
    intermediations: &[Intermediation],
    number: u32,
) -> Result<(usize, (usize, usize, usize, usize)), Refusal>
    ensures { Judges (trade_verdict place day minute trades.now intermediations.now number) (Stands trades.now intermediations.now number) result }
{
    let at = find(trades, number as u64).ok_or(Ground::NoTrade.at(place))?;
    test(!trades[at].is_cancelled(), Ground::TradeCancelled, place)?;
    let chain = follow(trades, intermediations, None, at, place)?;
    test(
        is_in_time(day, minute, &trades[at].terms),
        Ground::TooLate,
        place,
    )?;
    Ok((at, chain))
}
