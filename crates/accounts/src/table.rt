// A lent table of account rows.
ghost use Rattle.std.specs.Prelude.{◌≡◌, List, map, length, Some, None, MatchOption};
ghost use Rattle.accounts.specs.Rows.{listed, sound, rows_apart};
ghost use Rattle.keyed.specs.Fronts.{ends_early};
ghost use Rattle.keyed.specs.Rows.{find as find_row};
ghost use Rattle.register.specs.Meaning.{Listed, code_of, account_in, tied_in, Apart};

use crate::row::AccountRow;
use fields::{Account, Party, Refusal};
use keyed::{find, sound_part};
use register::Register;

// The rows that count, in rising order of their codes. No comparison is derived: it would compare whole tables.
#[derive(Clone, Copy)]
pub struct AccountTable<'a> {
    rows: &'a [AccountRow],
    ghost rises: { sound rows.now ≡ rows.now },
}

impl<'a> AccountTable<'a> {
    // The register of the rows up to the last one before the codes stop rising or a field is out of range;
    // and, where these are not all, that the table ends early, with the first bad row from 1. Both are told, as `sound_part` does.
    pub fn new(rows: &'a [AccountRow]) -> (Self, Result<(), Refusal>)
        ensures rows { result.0.rows.now ≡ sound rows.now }
        ensures fault { result.1 ≡ ends_early (length (sound rows.now)) (length rows.now) }
    {
        let (rows, fault) = sound_part(rows);
        (AccountTable { rows }, fault)
    }
}

impl<'a> Register for AccountTable<'a> {
    ghost accounts = { λ s. map listed s.rows.now };

    ghost apart = { λ s. rows_apart s.rows.now s.rises };

    fn account(&self, code: u32) -> Option<Account> {
        row_of(self.rows, code).map(|row| row.account)
    }

    fn tied(&self, code: u32, party: Party) -> bool {
        row_of(self.rows, code).is_some_and(|row| row.is_tied(party))
    }
}

// The row with this code.
#[tactic(auto, using(crate::proofs::Listed::found_listed, crate::proofs::Listed::none_listed))]
fn row_of(rows: &[AccountRow], code: u32) -> Option<&AccountRow>
    ensures { let found = find_row code_of code (map listed rows.now) in MatchOption result (found ≡ None) (λ row. found ≡ Some (listed row.now)) }
{
    find(rows, code as u64).map(|at| &rows[at])
}
