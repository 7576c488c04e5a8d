// A row of the trades that a request is to change.
ghost use Rattle.std.specs.Prelude.{◌≡◌, ◌<◌, length};
ghost use Rattle.std.specs.Option.{option_copied};
ghost use Rattle.completing.specs.Changes.{Within, put as put_in};

use rows::Trade;

// The row that is to stand at a place.
#[derive(Clone, Copy, Debug, PartialEq, Eq)]
pub struct Change {
    pub at: usize,
    pub row: Trade,
}

// Makes a change.
pub fn put(trades: &mut [Trade], change: Option<&Change>)
    requires { Within (length trades.old) (option_copied change) }
    ensures { trades.new ≡ put_in (option_copied change.entry) trades.old }
{
    if let Some(made) = change {
        trades[made.at] = made.row;
    }
}
