ghost use Rattle.std.specs.Prelude.{◌≡◌, if◌then◌else◌, Ok, Err};
ghost use Rattle.fields.specs.Ranges.{is_in_range};
ghost use Rattle.fields.specs.Refusals.{refused};
ghost use Rattle.fields.specs.declared.ground.Ground.TheVariants.{BadField};

use crate::answer::Refusal;
use crate::ground::Ground;

// The numbers from `least` to `most`.
#[derive(Clone, Copy, Debug, PartialEq, Eq)]
pub struct Range {
    pub least: u64,
    pub most: u64,
}

// Callers widen a smaller number by `as u64`, which loses nothing.
impl Range {
    pub fn holds(self, n: u64) -> bool
        ensures { result ≡ is_in_range self n }
    {
        (self.least..=self.most).contains(&n)
    }

    // Refuses a number that is not among them: it is a bad field at this place.
    pub fn test(self, n: u64, place: usize) -> Result<(), Refusal>
        ensures { result ≡ (if is_in_range self n then Ok tt else Err (refused BadField place)) }
    {
        if self.holds(n) {
            Ok(())
        } else {
            Err(Ground::BadField.at(place))
        }
    }
}

pub const MINUTE: Range = Range {
    least: 0,
    most: 1_439,
};
// trades, assets and intermediations
pub const NUMBER: Range = Range {
    least: 1,
    most: 999_999_999,
};
// a leg, which 0 leaves out; a client, which 0 does not name
pub const NUMBER_OR_NONE: Range = Range {
    least: 0,
    most: 999_999_999,
};
// participants and offerors
pub const PARTICIPANT: Range = Range {
    least: 1,
    most: 65_535,
};

pub const ACCOUNT: Range = Range {
    least: 1,
    most: 99_999_999,
};

pub const QUANTITY: Range = Range {
    least: 1,
    most: 100_000_000,
};

pub const DAY: Range = Range {
    least: 1,
    most: 99_999,
};

pub const FLAG: Range = Range { least: 0, most: 1 };
// how many entries an inclusion has
pub const ENTRIES: Range = Range { least: 1, most: 16 };
// the numbers of pairs, which issuers give
pub const ISSUED: Range = Range {
    least: 1,
    most: 1_000_000_000_000,
};
