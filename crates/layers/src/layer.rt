// A register seen through a view.
ghost use Rattle.std.specs.Prelude.{◌≡◌, List};
ghost use Rattle.fields.specs.declared.account.Account.{Account};
ghost use Rattle.layers.specs.Layers.{each, apart_each};
ghost use Rattle.register.specs.Meaning.{Listed, account_in, tied_in, Apart};

use crate::below::{account_below, tied_below};
use fields::{Account, Party};
use register::Register;

// How a layer shows the accounts below it.
pub trait View {
    ghost shows: { Self → Account → Account };

    // the code of an account stays
    ghost keeps_code: { (v : Self) (a : Account) → (shows v a).code ≡ a.code };

    // An account as the layer shows it.
    fn show(&self, account: Account) -> Account
        ensures { result ≡ shows self.now account };
}

// Shows the accounts below by a view; their ties are those below.
#[derive(Drop)]
pub struct Layer<R, V> {
    pub(crate) below: R,
    pub(crate) view: V,
}

impl<R, V> Layer<R, V> {
    // A register seen through any view.
    pub fn over(below: R, view: V) -> Self
        ensures { (result.below ≡ below) × (result.view ≡ view) }
    {
        Layer { below, view }
    }
}

impl<R: Register, V: View> Register for Layer<R, V> {
    ghost accounts = { λ s. each (V.shows s.view) (R.accounts s.below) };

    ghost apart = { λ s. apart_each (V.shows s.view) (V.keeps_code s.view) (R.accounts s.below) (R.apart s.below) };

    fn account(&self, code: u32) -> Option<Account> {
        let account = account_below(&self.below, code)?;
        Some(self.view.show(account))
    }

    fn tied(&self, code: u32, party: Party) -> bool {
        tied_below(&self.below, code, party)
    }
}
