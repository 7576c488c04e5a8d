// The lent tables of a book.
ghost use Rattle.keyed.specs.Rows.{table};
ghost use Rattle.book.specs.Tests.{Judges};
ghost use Rattle.book.specs.Verdicts.{tables_verdict};
ghost use Rattle.standing.specs.Standing.{Whole};

use book::Book;
use book::test::test;
use fields::{Ground, Intermediation, Pair, Refusal};
use rows::{Trade, is_whole, stands};

// 4: each table has its rows, within its limit, with every field in use in range; and a keyed one rises.
#[tactic(auto, unfolding(book::specs::Verdicts::tables_verdict))]
pub fn tables_stand(
    book: &Book,
    trades: &[Trade],
    intermediations: &[Intermediation],
    pairs: &[Pair],
) -> Result<(), Refusal>
    ensures { Judges (tables_verdict (table book.now.trades trades.now) (table book.now.intermediations intermediations.now) (table book.now.pairs pairs.now)) (λ _. Whole book.now trades.now intermediations.now pairs.now) result }
{
    test(stands(trades, book.trades, 4_096), Ground::BadTables, 0)?;
    test(
        stands(intermediations, book.intermediations, 2_048),
        Ground::BadTables,
        0,
    )?;
    test(is_whole(pairs, book.pairs, 65_536), Ground::BadTables, 0)
}
