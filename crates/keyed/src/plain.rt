// Rows of types from below: bare numbers, each its own key (account codes, and numbers that an issuer may give), intermediations and pairs; and parties.
ghost use Rattle.std.specs.Prelude.{ℕ};
ghost use Rattle.fields.specs.Ranges.{is_in_range, issued};
ghost use Rattle.keyed.specs.Plain.{good_intermediation, good_pair, good_party};

use crate::row::{Checked, Keyed};
use fields::range::{ACCOUNT, ISSUED, NUMBER, NUMBER_OR_NONE, PARTICIPANT, QUANTITY};
use fields::{Intermediation, Pair, Party};

impl Keyed for u32 {
    ghost key = { λ n. n };

    fn key_number(&self) -> u64 {
        *self as u64
    }
}

impl Keyed for u64 {
    ghost key = { λ n. n };

    fn key_number(&self) -> u64 {
        *self
    }
}

impl Checked for u64 {
    ghost good = { is_in_range issued };

    fn is_good(&self) -> bool {
        ISSUED.holds(*self)
    }
}

impl Checked for Party {
    ghost good = { good_party };

    fn is_good(&self) -> bool {
        PARTICIPANT.holds(self.participant as u64) && PARTICIPANT.holds(self.offeror as u64)
    }
}

impl Keyed for Intermediation {
    ghost key = { λ x. x.id };

    fn key_number(&self) -> u64 {
        self.id as u64
    }
}

impl Checked for Intermediation {
    ghost good = { good_intermediation };

    fn is_good(&self) -> bool {
        NUMBER.holds(self.id as u64)
            && PARTICIPANT.holds(self.participant as u64)
            && ACCOUNT.holds(self.account as u64)
            && NUMBER_OR_NONE.holds(self.bought as u64)
            && NUMBER_OR_NONE.holds(self.sold as u64)
            && (self.bought != 0 || self.sold != 0)
    }
}

impl Checked for Pair {
    ghost good = { good_pair };

    fn is_good(&self) -> bool {
        ISSUED.holds(self.number)
            && NUMBER.holds(self.first as u64)
            && ACCOUNT.holds(self.seller as u64)
            && NUMBER.holds(self.last as u64)
            && ACCOUNT.holds(self.buyer as u64)
            && QUANTITY.holds(self.quantity as u64)
    }
}
