// A table of rising numbers.
ghost use Rattle.std.specs.Prelude.{◌≡◌, ℕ, length};
ghost use Rattle.issuers.specs.Numbers.{Fresh, first_of, rest_of};
ghost use Rattle.issuers.specs.Rolls.{rising, roll_fresh};
ghost use Rattle.keyed.specs.Fronts.{ends_early};

use crate::source::Issuer;
use fields::Refusal;
use keyed::sound_part;

// The numbers of a lent table that are left.
#[derive(Drop)]
pub struct Roll<'a> {
    left: &'a [u64],
    ghost rises: { rising 0 left.now ≡ left.now },
}

impl<'a> Roll<'a> {
    // The roll of the numbers before the first that does not rise or is out of range;
    // and, where there is such a number, that the table ends early, with its row from 1. Both are told, as `sound_part` does.
    pub fn new(numbers: &'a [u64]) -> (Self, Result<(), Refusal>)
        ensures left { result.0.left.now ≡ rising 0 numbers.now }
        ensures fault { result.1 ≡ ends_early (length (rising 0 numbers.now)) (length numbers.now) }
    {
        let (left, fault) = sound_part(numbers);
        (Roll { left }, fault)
    }
}

impl<'a> Issuer for Roll<'a> {
    ghost left = { λ s. s.left.now };

    ghost fresh = { λ s. roll_fresh s.left.now s.rises };

    fn remaining(&self) -> u64 {
        self.left.len() as u64
    }

    fn next(&mut self) -> Option<u64> {
        let (number, rest) = self.left.split_first()?;
        self.left = rest;
        Some(*number)
    }
}
