// Kinds, and which accounts may stand on a side.
ghost use Rattle.std.specs.Prelude.{◌≡◌};
ghost use Rattle.rows.specs.Accounts.{active, both_sides_type, in_markets, intermediation_type, is_selic, same_kind, selic_type, suits};

use fields::{Account, AccountType, Kind, Markets, Status};

pub fn is_selic(kind: Kind) -> bool
    ensures { result ≡ is_selic kind }
{
    kind == Kind::Selic
}

pub fn are_same_kind(one: Kind, two: Kind) -> bool
    ensures { result ≡ same_kind one two }
{
    one == two
}

fn has_market(markets: Markets, kind: Kind) -> bool
    ensures { result ≡ in_markets kind markets }
{
    match kind {
        Kind::Selic => markets.selic,
        Kind::Deposited => markets.deposited,
        Kind::Registered => markets.registered,
    }
}

fn is_selic_type(class: AccountType) -> bool
    ensures { result ≡ selic_type class }
{
    matches!(class, AccountType::SL | AccountType::SI)
}

// Whether accounts of this type are intermediation accounts.
pub fn is_intermediation_type(class: AccountType) -> bool
    ensures { result ≡ intermediation_type class }
{
    matches!(class, AccountType::SI | AccountType::IN)
}

// Whether accounts of this type may stand on both sides of a trade.
pub fn is_both_sides_type(class: AccountType) -> bool
    ensures { result ≡ both_sides_type class }
{
    matches!(class, AccountType::C1 | AccountType::C2)
}

// Whether the account is not blocked, and was registered before the book's day.
pub fn is_active(day: u32, account: &Account) -> bool
    ensures { result ≡ active day account.now }
{
    account.status == Status::Active && account.day < day
}

// Whether the account suits the kind by its type and by its markets.
pub fn is_suited(kind: Kind, account: &Account) -> bool
    ensures { result ≡ suits kind account.now }
{
    is_selic_type(account.class) == is_selic(kind) && has_market(account.markets, kind)
}
