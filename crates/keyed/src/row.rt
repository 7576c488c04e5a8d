// What a row of a table tells of itself.
ghost use Rattle.std.specs.Prelude.{◌≡◌, ℕ, Bool};

// A row that tells its key.
pub trait Keyed {
    ghost key: { Self → ℕ };

    fn key_number(&self) -> u64
        ensures { result ≡ key self.now };
}

// A row that tells whether its fields in use are in range.
pub trait Checked {
    ghost good: { Self → Bool };

    fn is_good(&self) -> bool
        ensures { result ≡ good self.now };
}
