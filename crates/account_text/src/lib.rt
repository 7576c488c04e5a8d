// An account text as a register.
#![tactic(auto)]

ghost use Rattle.std.specs.Prelude.{◌≡◌, List};
ghost use Rattle.std.specs.Option.{option_map};
ghost use Rattle.account_text.specs.Texts.{text_means, text_apart};
ghost use Rattle.accounts.specs.Rows.{listed};
ghost use Rattle.keyed.specs.Rows.{find};
ghost use Rattle.register.specs.Meaning.{Listed, code_of, account_in, tied_in, Apart};

use account_line::read_account;
use accounts::AccountRow;
use fields::{Account, Party};
use register::Register;
use text::Lines;

// The good lines of a lent text, which is not compared; the first good line of a code counts. Byte 10 ends a line, and the last may lack it.
#[derive(Clone, Copy)]
pub struct AccountText<'a> {
    bytes: &'a [u8],
}

impl<'a> AccountText<'a> {
    pub fn new(bytes: &'a [u8]) -> Self
        ensures { result.bytes.now ≡ bytes.now }
    {
        AccountText { bytes }
    }
}

impl<'a> Register for AccountText<'a> {
    ghost accounts = { λ s. text_means s.bytes.now };

    ghost apart = { λ s. text_apart s.bytes.now };

    fn account(&self, code: u32) -> Option<Account> {
        row_of(self.bytes, code).map(|row| row.account)
    }

    fn tied(&self, code: u32, party: Party) -> bool {
        row_of(self.bytes, code).is_some_and(|row| row.is_tied(party))
    }
}

// What the first good line of a code says.
fn row_of(bytes: &[u8], code: u32) -> Option<AccountRow>
    ensures { option_map listed result ≡ find code_of code (text_means bytes.now) }
{
    Lines::new(bytes)
        .filter_map(|line| read_account(line).ok())
        .find(|row| row.account.code == code)
}
