// Until when a trade can be acted on.
ghost use Rattle.std.specs.Prelude.{◌≡◌};
ghost use Rattle.rows.specs.Hours.{in_time, last_minute};

use crate::account::is_selic;
use fields::Terms;

// The last minute of the day in time for a trade.
fn last_minute(day: u32, terms: &Terms) -> u32
    ensures { result ≡ last_minute day terms.now }
{
    match (terms.settlement <= day, is_selic(terms.kind)) {
        (true, true) => 1_080,
        (true, false) => 1_060,
        (false, true) => 1_200,
        (false, false) => 1_170,
    }
}

pub fn is_in_time(day: u32, minute: u32, terms: &Terms) -> bool
    ensures { result ≡ in_time day minute terms.now }
{
    minute <= last_minute(day, terms)
}
