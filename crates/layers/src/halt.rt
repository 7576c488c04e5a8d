// Kinds that are halted.
ghost use Rattle.std.specs.Prelude.{◌≡◌, refl};
ghost use Rattle.layers.specs.Layers.{open_markets, halt_account};

use crate::layer::{Layer, View};
use fields::{Account, Markets};

// Takes the halted kinds out of the markets of every account.
pub type Halt<R> = Layer<R, Halted>;

// The kinds that are halted.
#[derive(Clone, Copy, Debug, PartialEq, Eq)]
pub struct Halted {
    kinds: Markets,
}

impl<R> Halt<R> {
    pub fn new(below: R, halted: Markets) -> Self
        ensures { (result.below ≡ below) × (result.view.kinds ≡ halted) }
    {
        Layer {
            below,
            view: Halted { kinds: halted },
        }
    }
}

impl View for Halted {
    ghost shows = { λ s. halt_account s.kinds };

    ghost keeps_code = { λ _ _. refl };

    fn show(&self, mut account: Account) -> Account {
        account.markets = less(account.markets, self.kinds);
        account
    }
}

// The markets that are not halted.
fn less(markets: Markets, halted: Markets) -> Markets
    ensures { result ≡ open_markets halted markets }
{
    Markets {
        selic: markets.selic && !halted.selic,
        deposited: markets.deposited && !halted.deposited,
        registered: markets.registered && !halted.registered,
    }
}
