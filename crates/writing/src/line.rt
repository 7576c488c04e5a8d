ghost use Rattle.std.specs.Prelude.{◌≡◌, ◌+◌, ◌*◌, ◌<◌, ◌≤◌, true, length, is_ok, decimal, nat_le};
ghost use Rattle.writing.specs.Written.{bytes_of, commaed, line_of, over, Writes};

use crate::piece::Piece;
use fields::{Ground, Refusal};
use itoa::write_digits;

// How many figures a number has.
#[tactic(auto, using(crate::proofs::Decimals::one_figure, crate::proofs::Decimals::figures_are))]
fn figures(n: u64) -> usize
    ensures value { result ≡ length (decimal n) }
    ensures bound { result ≤ 20 }
{
    // most numbers of a line are short
    if n < 10 {
        return 1;
    }
    n.ilog10() as usize + 1
}

// How many bytes a field has.
fn width(piece: &Piece) -> usize
    ensures value { result ≡ length (bytes_of piece.now) }
    ensures bound { result ≤ 20 }
{
    match piece {
        Piece::Letter(_) => 1,
        Piece::Number(n) => figures(*n),
    }
}

// A number from a place on, up to the place behind it.
#[tactic(auto, using(crate::proofs::Over::ending_over))]
fn write_number(out: &mut [u8], at: usize, end: usize, n: u64)
    requires { (end ≡ at + length (decimal n)) × (end ≤ length out.old) }
    ensures { out.new ≡ over out.old at (decimal n) }
{
    write_digits(n, out, end);
}

// A field from a place on, and the place behind it.
#[tactic(auto, using(crate::proofs::Over::set_over, std::proofs::lemmas::Fmt::decimal_digit))]
fn write_piece(out: &mut [u8], at: usize, piece: &Piece) -> usize
    requires { at + length (bytes_of piece.now) ≤ length out.old }
    ensures value { result ≡ at + length (bytes_of piece.now) }
    ensures after { out.new ≡ over out.old at (bytes_of piece.now) }
{
    let end = at + width(piece);
    match piece {
        Piece::Letter(b) => out[at] = *b,
        Piece::Number(n) if *n < 10 => out[at] = b'0' + *n as u8,
        Piece::Number(n) => write_number(out, at, end, *n),
    }
    end
}

// Whether the fields, a comma before each, have room. A `for`, since with `try_fold` what it leaves stayed unproved.
fn has_room(pieces: &[Piece], room: usize) -> bool
    ensures value { result ≡ nat_le (length (commaed pieces.now)) room }
    ensures enough { 21 * length pieces.now ≤ room → result ≡ true }
{
    let mut left = room;
    for piece in pieces {
        let wide = width(piece);
        if left <= wide {
            return false;
        }
        left -= wide + 1;
    }
    true
}

// The fields from a place on, a comma before each, and the place behind them.
fn write_fields(out: &mut [u8], start: usize, pieces: &[Piece]) -> usize
    requires { start + length (commaed pieces.now) ≤ length out.old }
    ensures value { result ≡ start + length (commaed pieces.now) }
    ensures after { out.new ≡ over out.old start (commaed pieces.now) }
{
    // A field is as wide as its bytes, so the place is no multiple of an index.
    let mut at = start;
    for piece in pieces {
        out[at] = b',';
        at = write_piece(out, at + 1, piece);
    }
    at
}

// Writes a letter and the fields behind it, and tells how many bytes that took. The bytes behind stay;
// a buffer that is too short stays whole. A byte for the letter and 21 for each field are enough.
// Always inlined: what a line consists of is known where it is written.
#[inline(always)]
pub fn write_line(out: &mut [u8], letter: u8, pieces: &[Piece]) -> Result<usize, Refusal>
    ensures { Writes (line_of letter pieces.now) (1 + 21 * length pieces.now) out.old out.new result }
{
    if out.is_empty() || !has_room(pieces, out.len() - 1) {
        return Err(Ground::BufferShort.at(0));
    }
    out[0] = letter;
    Ok(write_fields(out, 1, pieces))
}
