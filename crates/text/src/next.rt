// Fields that are numbers, and the end of a line. `small` says again what `reads` implies of a number, in the form that a cast or an index
// wants; a name for it would be no shorter.
ghost use Rattle.std.specs.Prelude.{◌≡◌, ◌≤◌, IfOk};
ghost use Rattle.text.specs.Fields.{fields, narrow, number as number_in};
ghost use Rattle.text.specs.Cuts.{left, seen};
ghost use Rattle.text.specs.Reading.{field, end, only};

use crate::number::numeral;
use fields::{Ground, Range, Refusal};

// The number in the next field, which is the field at `place`, and where the reader then stands.
#[tactic(auto, using(crate::proofs::Taken::behind_comma))]
pub fn read_number(rest: &[u8], place: usize, range: Range) -> Result<(u64, &[u8]), Refusal>
    ensures reads { field (number_in range) place (left rest.now) ≡ seen result }
    ensures small { IfOk result (λ p. p.0 ≤ range.most) }
{
    let [b',', text @ ..] = rest else {
        return Err(Ground::FieldCount.at(place));
    };
    let Some((value, rest)) = numeral(text, range) else {
        return Err(Ground::BadField.at(place));
    };
    Ok((value, rest))
}

// The same, where 32 bits are enough for the range; greater numbers do not read.
pub fn read_u32(rest: &[u8], place: usize, range: Range) -> Result<(u32, &[u8]), Refusal>
    ensures reads { field (number_in (narrow range)) place (left rest.now) ≡ seen result }
    ensures small { IfOk result (λ p. p.0 ≤ range.most) }
{
    let narrow = Range {
        most: range.most.min(u32::MAX as u64),
        ..range
    };
    let (value, rest) = read_number(rest, place, narrow)?;
    Ok((value as u32, rest))
}

// The number in the first field of a line; a fault has the place that is given.
#[tactic(auto, using(crate::proofs::Taken::fields_is))]
pub fn read_first(line: &[u8], place: usize, range: Range) -> Result<(u64, &[u8]), Refusal>
    ensures reads { field (number_in range) place (fields line.now) ≡ seen result }
    ensures small { IfOk result (λ p. p.0 ≤ range.most) }
{
    let Some((number, rest)) = numeral(line, range) else {
        return Err(Ground::BadField.at(place));
    };
    Ok((number, rest))
}

// The number in a line of one field; each fault has the place that is given.
pub fn read_only(line: &[u8], place: usize, range: Range) -> Result<u64, Refusal>
    ensures reads { result ≡ only range place line.now }
    ensures small { IfOk result (λ n. n ≤ range.most) }
{
    let (value, rest) = read_first(line, place, range)?;
    read_end(rest, place)?;
    Ok(value)
}

// No field may follow: one at `place` is too many.
#[tactic(auto, using(crate::proofs::Taken::behind_comma))]
pub fn read_end(rest: &[u8], place: usize) -> Result<(), Refusal>
    ensures { result ≡ end place (left rest.now) }
{
    let [b',', ..] = rest else {
        return Ok(());
    };
    Err(Ground::FieldCount.at(place))
}
