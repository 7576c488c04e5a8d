ghost use Rattle.std.specs.Prelude.{◌≤◌, IfSome};
ghost use Rattle.text.specs.Fields.{behind, number as number_in, up_to};
ghost use Rattle.text.specs.Cuts.{Takes};

use fields::Range;

// The number that the figures up to the comma or the end make; nothing past `most`.
#[tactic(auto, using(crate::proofs::Scan::too_big))]
fn figures(text: &[u8], most: u64) -> Option<(u64, &[u8])>
    ensures { Takes (λ f. up_to most (behind 0 f)) text.now result }
{
    let mut total: u64 = 0;
    let mut rest = text;
    while let [b, tail @ ..] = rest {
        let figure = match *b {
            b',' => break,
            b'0'..=b'9' => *b - b'0',
            _ => return None,
        };
        total = total.checked_mul(10)?.checked_add(u64::from(figure))?;
        if total > most {
            return None;
        }
        rest = tail;
    }
    Some((total, rest))
}

// The number of the range that stands before the comma or the end, and what follows it.
#[tactic(auto, using(crate::proofs::Parted::onward_length, crate::proofs::Scan::cut_length, crate::proofs::Scan::front_first, crate::proofs::Scan::numeral_is))]
pub fn numeral(text: &[u8], range: Range) -> Option<(u64, &[u8])>
    ensures takes { Takes (number_in range) text.now result }
    ensures small { IfSome result (λ p. p.0 ≤ range.most) }
{
    let (value, rest) = figures(text, range.most)?;
    let len = text.len() - rest.len();
    if len == 0 {
        return None;
    }
    if len > 1 && text[0] == b'0' {
        return None;
    }
    if value < range.least {
        return None;
    }
    Some((value, rest))
}
