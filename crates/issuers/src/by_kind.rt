// Two issuers, of which the kind of a chain's first trade picks one. They may be of two types, so each is a parameter.
ghost use Rattle.std.specs.Prelude.{◌≡◌, length};
ghost use Rattle.issuers.specs.Kinds.{for_kind};
ghost use Rattle.issuers.specs.Numbers.{first_of, rest_of};

use crate::source::Issuer;
use fields::Kind;

// How many numbers are left for this kind.
pub fn remaining_for<S: Issuer, C: Issuer>(selic: &S, control: &C, kind: Kind) -> u64
    ensures { result ≡ length (for_kind kind (S.left selic.now) (C.left control.now)) }
{
    match kind {
        Kind::Selic => selic.remaining(),
        Kind::Deposited | Kind::Registered => control.remaining(),
    }
}

// The next number for this kind; the other issuer is left as it is.
pub fn next_for<S: Issuer, C: Issuer>(selic: &mut S, control: &mut C, kind: Kind) -> Option<u64>
    ensures given { result ≡ first_of (for_kind kind (S.left selic.old) (C.left control.old)) }
    ensures selic { S.left selic.new ≡ for_kind kind (rest_of (S.left selic.old)) (S.left selic.old) }
    ensures control { C.left control.new ≡ for_kind kind (C.left control.old) (rest_of (C.left control.old)) }
{
    match kind {
        Kind::Selic => selic.next(),
        Kind::Deposited | Kind::Registered => control.next(),
    }
}
