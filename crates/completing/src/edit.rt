// Changes of one row of the trades, in place. Trades, count and place stay three parameters whose range each function asks for: a struct of a
// `&mut` slice would have to be made for each call, and be longer than they are.
ghost use Rattle.std.specs.Prelude.{◌≡◌, ◌<◌, ◌≤◌, length};
ghost use Rattle.std.specs.Fn.{FnOnceReturnsAtMut};
ghost use Rattle.rows.specs.Allocations.{emptied};
ghost use Rattle.rows.specs.Trades.{at_side, cancelled, marked, number, numbered};
ghost use Rattle.chains.specs.Places.{number_at, row_at};
ghost use Rattle.completing.specs.Edits.{Changed, KeepsNumber, Makes};

use fields::Side;
use rows::{Event, Trade};

// Changes the trade at a place, one of the first `count`, by a step that keeps its number. Where the step makes f of the row, the row with
// that number is changed by f.
pub fn change_at<F: FnOnce(&mut Trade)>(trades: &mut [Trade], count: usize, at: usize, step: F)
    requires callable { F.IsAlwaysCallable step }
    requires there { (at < count) × (count ≤ length trades.old) }
    requires keeps { KeepsNumber (λ row after. FnOnceReturnsAtMut F.FnOnce step row tt after) (row_at trades.old at) }
    ensures { (f : Trade → Trade) → Makes (λ row after. FnOnceReturnsAtMut F.FnOnce step row tt after) f (row_at trades.old at) → Changed count at f trades.old trades.new }
{
    step(&mut trades[at]);
}

// Puts a row that has the number of the row there.
pub fn put_row(trades: &mut [Trade], count: usize, at: usize, row: Trade)
    requires { (at < count) × ((count ≤ length trades.old) × (number row ≡ number_at trades.old at)) }
    ensures { (f : Trade → Trade) → row ≡ f (row_at trades.old at) → Changed count at f trades.old trades.new }
{
    change_at(trades, count, at, |there| *there = row);
}

// The trade at a place becomes numbered.
pub fn number_at(trades: &mut [Trade], count: usize, at: usize)
    requires { (at < count) × (count ≤ length trades.old) }
    ensures { Changed count at numbered trades.old trades.new }
{
    change_at(trades, count, at, |row| row.number());
}

// It is marked as cancelled in the trading system.
pub fn mark_at(trades: &mut [Trade], count: usize, at: usize)
    requires { (at < count) × (count ≤ length trades.old) }
    ensures { Changed count at marked trades.old trades.new }
{
    change_at(trades, count, at, |row| row.mark());
}

// It is cancelled, and its sides are emptied.
pub fn cancel_at(trades: &mut [Trade], count: usize, at: usize)
    requires { (at < count) × (count ≤ length trades.old) }
    ensures { Changed count at cancelled trades.old trades.new }
{
    change_at(trades, count, at, |row| row.cancel());
}

// A side of it is emptied.
pub fn empty_at(trades: &mut [Trade], count: usize, at: usize, side: Side)
    requires { (at < count) × (count ≤ length trades.old) }
    ensures { Changed count at (at_side side emptied) trades.old trades.new }
{
    change_at(trades, count, at, |row| row.happen(side, Event::Remove));
}
