// What a layer passes on to the register below it.
ghost use Rattle.std.specs.Prelude.{◌≡◌};
ghost use Rattle.std.specs.Option.{option_map};
ghost use Rattle.layers.specs.Layers.{each};
ghost use Rattle.register.specs.Meaning.{account_in, tied_in};

use fields::{Account, Party};
use register::Register;

// The account below, which a layer that keeps codes shows as it changes every account.
#[tactic(auto, using(crate::proofs::Each::account_each))]
pub fn account_below<R: Register>(below: &R, code: u32) -> Option<Account>
    ensures { (f : Account → Account) → ((a : Account) → (f a).code ≡ a.code) → option_map f result ≡ account_in (each f (R.accounts below.now)) code }
{
    below.account(code)
}

// The ties are those below, whatever a layer makes of the accounts, if it keeps their codes.
#[tactic(auto, using(crate::proofs::Each::tied_each))]
pub fn tied_below<R: Register>(below: &R, code: u32, party: Party) -> bool
    ensures { (f : Account → Account) → ((a : Account) → (f a).code ≡ a.code) → result ≡ tied_in (each f (R.accounts below.now)) code party }
{
    below.tied(code, party)
}
