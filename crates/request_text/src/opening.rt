ghost use Rattle.std.specs.Prelude.{◌≡◌};
ghost use Rattle.text.specs.Cuts.{left};
ghost use Rattle.request_text.specs.Lines.{opening as openingOf, opening_fields};

use fields::range::{DAY, ISSUED};
use fields::{Ground, Refusal};
use text::{read_end, read_number, read_u32, split_letter};

// The first line of a day: the book's day, and the first and last number of the band.
#[derive(Clone, Copy, Debug, PartialEq, Eq)]
pub struct Opening {
    pub day: u32,
    pub first: u64,
    pub last: u64,
}

// day,band first,band last
fn read_fields(rest: &[u8]) -> Result<Opening, Refusal>
    ensures { result ≡ opening_fields (left rest.now) }
{
    let (day, rest) = read_u32(rest, 2, DAY)?;
    let (first, rest) = read_number(rest, 3, ISSUED)?;
    let (last, rest) = read_number(rest, 4, ISSUED)?;
    read_end(rest, 5)?;
    Ok(Opening { day, first, last })
}

// What the first line of a day says, or why it is refused.
#[tactic(auto, using(crate::proofs::Taken::opening_is))]
pub fn read_opening(line: &[u8]) -> Result<Opening, Refusal>
    ensures { result ≡ openingOf line.now }
{
    let Some((b'N', rest)) = split_letter(line) else {
        return Err(Ground::UnknownLetter.at(1));
    };
    read_fields(rest)
}
