ghost use Rattle.std.specs.Prelude.{◌≡◌};
ghost use Rattle.writing.specs.declared.piece.Piece.TheVariants.{Number};

// A field of a line that is written.
#[derive(Clone, Copy, Debug, PartialEq, Eq)]
pub enum Piece {
    Letter(u8),
    Number(u64),
}

impl From<u32> for Piece {
    ghost from_gives = { λ n piece. piece ≡ Number n };

    fn from(n: u32) -> Self {
        Piece::Number(n as u64)
    }
}

// For the unused places of an `ArrayVec`; no derive fits, since no variant is plain.
impl Default for Piece {
    ghost is_default = { λ piece. piece ≡ Number 0 };

    fn default() -> Self {
        Piece::Number(0)
    }
}
