// What a register of accounts means, and what it can be asked.
#![tactic(auto)]

ghost use Rattle.std.specs.Prelude.{◌≡◌, List};
ghost use Rattle.register.specs.Meaning.{Listed, account_in, tied_in, Apart};

use fields::{Account, Party};

// Any register that keeps its meaning may stand below the book.
pub trait Register {
    // the accounts with their ties
    ghost accounts: { Self → List Listed };

    // no code occurs twice
    ghost apart: { (s : Self) → Apart (accounts s) };

    // The account with this code, without its ties, or nothing.
    fn account(&self, code: u32) -> Option<Account>
        ensures { result ≡ account_in (accounts self.now) code };

    // Whether that account is listed with this tie. A code and a party are what is asked, so they stay two parameters.
    fn tied(&self, code: u32, party: Party) -> bool
        ensures { result ≡ tied_in (accounts self.now) code party };
}
