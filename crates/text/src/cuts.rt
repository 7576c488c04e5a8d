ghost use Rattle.std.specs.Prelude.{◌≡◌, ◌<◌, [], ◌∷◌, length, MatchOption};
ghost use Rattle.text.specs.Fields.{lines, single};
ghost use Rattle.text.specs.Cuts.{before, onward, Takes};

// The bytes before the first `mark`, and those from it on.
pub fn cut(text: &[u8], mark: u8) -> (&[u8], &[u8])
    ensures { (result.0.now ≡ before mark text.now) × (result.1.now ≡ onward mark text.now) }
{
    let place = text.iter().position(|b| *b == mark).unwrap_or(text.len());
    text.split_at(place)
}

// The first line, without the byte 10 that ends it, and the text behind that.
#[tactic(auto, using(crate::proofs::Parted::line_is, crate::proofs::Parted::onward_length))]
pub fn next_line(text: &[u8]) -> Option<(&[u8], &[u8])>
    ensures { MatchOption result (text.now ≡ [])
        (λ p. (lines text.now ≡ p.0.now ∷ lines p.1.now) × (length p.1.now < length text.now)) }
{
    if text.is_empty() {
        return None;
    }
    let (line, rest) = cut(text, b'\n');
    let [_, behind @ ..] = rest else {
        return Some((line, rest));
    };
    Some((line, behind))
}

// The one byte that stands before the comma or the end, and what follows it.
pub fn split_letter(text: &[u8]) -> Option<(u8, &[u8])>
    ensures { Takes single text.now result }
{
    let [letter, rest @ ..] = text else {
        return None;
    };
    if *letter == b',' {
        return None;
    }
    let ([] | [b',', ..]) = rest else {
        return None;
    };
    Some((*letter, rest))
}
