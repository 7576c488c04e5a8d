ghost use Rattle.std.specs.Prelude.{◌≡◌};
ghost use Rattle.writing.specs.Written.{pair_line, Writes};

use crate::line::write_line;
use crate::piece::Piece;
use fields::{Pair, Refusal};

// `P,number,first trade,seller account,last trade,buyer account,quantity`; 127 bytes are enough.
pub fn write_pair(out: &mut [u8], pair: Pair) -> Result<usize, Refusal>
    ensures { Writes (pair_line pair) 127 out.old out.new result }
{
    let pieces = [
        Piece::Number(pair.number),
        Piece::from(pair.first),
        Piece::from(pair.seller),
        Piece::from(pair.last),
        Piece::from(pair.buyer),
        Piece::from(pair.quantity),
    ];
    write_line(out, b'P', &pieces)
}
