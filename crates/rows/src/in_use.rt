// Which fields of the rows are in use, and whether they are in range.
ghost use Rattle.std.specs.Prelude.{◌≡◌, ℕ};
ghost use Rattle.rows.specs.InUse.{good_allocation, good_entry, good_terms, good_trade};
ghost use Rattle.rows.specs.Trades.{number};

use crate::row::{Allocation, KeptEntry, Trade};
use fields::Terms;
use fields::range::{ACCOUNT, DAY, ENTRIES, NUMBER, NUMBER_OR_NONE, QUANTITY};
use keyed::{Checked, Keyed, all_good};

impl Keyed for Trade {
    ghost key = { number };

    fn key_number(&self) -> u64 {
        self.terms.number as u64
    }
}

impl Checked for KeptEntry {
    ghost good = { λ e. good_entry e.entry };

    fn is_good(&self) -> bool {
        ACCOUNT.holds(self.entry.account as u64)
            && QUANTITY.holds(self.entry.quantity as u64)
            && NUMBER_OR_NONE.holds(self.entry.client as u64)
    }
}

// The tie; and of a side that is not empty its count, and the entries that it holds.
impl Checked for Allocation {
    ghost good = { good_allocation };

    fn is_good(&self) -> bool {
        NUMBER_OR_NONE.holds(self.tie as u64)
            && (self.is_empty() || (ENTRIES.holds(self.count as u64) && all_good(self.held())))
    }
}

fn are_terms_good(terms: &Terms) -> bool
    ensures { result ≡ good_terms terms.now }
{
    NUMBER.holds(terms.number as u64)
        && NUMBER.holds(terms.asset as u64)
        && QUANTITY.holds(terms.quantity as u64)
        && DAY.holds(terms.settlement as u64)
        && terms.buyer.is_good()
        && terms.seller.is_good()
}

impl Checked for Trade {
    ghost good = { good_trade };

    fn is_good(&self) -> bool {
        are_terms_good(&self.terms) && self.buyer.is_good() && self.seller.is_good()
    }
}
