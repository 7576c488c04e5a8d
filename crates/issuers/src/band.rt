// The numbers from a first to a last.
ghost use Rattle.std.specs.Prelude.{◌≡◌, ℕ, ◌+◌, ◌-◌, ◌≤◌, length, Some, None, MatchResult};
ghost use Rattle.issuers.specs.Bands.{band, band_fault, band_fresh};
ghost use Rattle.issuers.specs.Numbers.{Fresh, first_of, rest_of};

use crate::source::Issuer;
use fields::Refusal;
use fields::range::ISSUED;

// None is left once `first` exceeds `last`.
#[derive(Drop)]
pub struct Band {
    first: u64,
    last: u64,
    ghost from_one: { 1 ≤ first },
    ghost in_range: { last ≤ 1000000000000 },
}

impl Band {
    // The band from `first` to `last`, empty if `first` exceeds `last`; either out of range is refused at its place.
    pub fn new(first: u64, last: u64) -> Result<Self, Refusal>
        ensures { MatchResult result (λ b. (band_fault first last ≡ None) × (band b.first b.last ≡ band first last)) (λ e. band_fault first last ≡ Some e) }
    {
        ISSUED.test(first, 1)?;
        ISSUED.test(last, 2)?;
        Ok(Band { first, last })
    }
}

impl Issuer for Band {
    ghost left = { λ s. band s.first s.last };

    ghost fresh = { λ s. band_fresh s.first s.last s.from_one s.in_range };

    fn remaining(&self) -> u64 {
        (self.last + 1).saturating_sub(self.first)
    }

    fn next(&mut self) -> Option<u64> {
        if self.first > self.last {
            return None;
        }
        let number = self.first;
        self.first += 1;
        Some(number)
    }
}
