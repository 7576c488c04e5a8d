ghost use Rattle.std.specs.Prelude.{◌≡◌};
ghost use Rattle.writing.specs.Written.{answer_line, Writes};

use crate::line::write_line;
use crate::piece::Piece;
use fields::{Answer, Refusal};

// `A,n,first`, `T` or `R,number,place`; 43 bytes are enough. A `usize` becomes a `u64` by `as`, since there is no `From`.
pub fn write_answer(out: &mut [u8], answer: Result<Answer, Refusal>) -> Result<usize, Refusal>
    ensures { Writes (answer_line answer) 43 out.old out.new result }
{
    match answer {
        Ok(Answer::Written { pairs, first }) => {
            write_line(
                out,
                b'A',
                &[Piece::Number(pairs as u64), Piece::Number(first as u64)],
            )
        }
        Ok(Answer::Marked) => write_line(out, b'T', &[]),
        Err(refusal) => {
            let number = refusal.ground.number();
            write_line(
                out,
                b'R',
                &[
                    Piece::Number(u64::from(number)),
                    Piece::Number(refusal.place as u64),
                ],
            )
        }
    }
}
