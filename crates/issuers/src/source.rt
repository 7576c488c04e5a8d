// What an issuer is asked.
ghost use Rattle.std.specs.Prelude.{◌≡◌, ℕ, List, length};
ghost use Rattle.issuers.specs.Numbers.{Fresh, first_of, rest_of};

// Any issuer that keeps its meaning may number pairs.
pub trait Issuer {
    // the numbers left, in the order in which they are given
    ghost left: { Self → List ℕ };

    // no two are equal, and each is 1 to 1,000,000,000,000
    ghost fresh: { (s : Self) → Fresh (left s) };

    // How many numbers are left.
    fn remaining(&self) -> u64
        ensures { result ≡ length (left self.now) };

    // The first number left, which is left no more; nothing if none is left.
    fn next(&mut self) -> Option<u64>
        ensures given { result ≡ first_of (left self.old) }
        ensures rest { left self.new ≡ rest_of (left self.old) };
}
