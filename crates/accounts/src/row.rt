// An account as a row of a lent table.
ghost use Rattle.std.specs.Prelude.{◌≡◌, ◌&&◌};
ghost use Rattle.keyed.specs.Lists.{any};
ghost use Rattle.register.specs.Meaning.{same_party};
ghost use Rattle.accounts.specs.Rows.{row_code, in_use, good_row};

use fields::range::{ACCOUNT, DAY};
use fields::{Account, Party, Range};
use keyed::{Checked, Keyed, all_good};

// how many ties an account has
pub const TIES: Range = Range { least: 1, most: 4 };

// The first `tie_count` ties are in use. The caller lends rows with any numbers in them, so the count stands beside the table.
#[derive(Clone, Copy, Debug, PartialEq, Eq)]
pub struct AccountRow {
    pub account: Account,
    pub tie_count: usize,
    pub ties: [Party; 4],
}

impl AccountRow {
    // Whether the account is tied to a party.
    pub fn is_tied(&self, party: Party) -> bool
        ensures { result ≡ any (same_party party) (in_use self.now) }
    {
        self.ties_in_use().contains(&party)
    }

    // The ties in use.
    fn ties_in_use(&self) -> &[Party]
        ensures { result.now ≡ in_use self.now }
    {
        &self.ties[..self.tie_count.min(self.ties.len())]
    }
}

impl Keyed for AccountRow {
    ghost key = { row_code };

    fn key_number(&self) -> u64 {
        self.account.code as u64
    }
}

impl Checked for AccountRow {
    ghost good = { good_row };

    fn is_good(&self) -> bool {
        ACCOUNT.holds(self.account.code as u64)
            && DAY.holds(self.account.day as u64)
            && TIES.holds(self.tie_count as u64)
            && all_good(self.ties_in_use())
    }
}
