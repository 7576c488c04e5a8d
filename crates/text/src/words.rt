// Fields that are letters.
ghost use Rattle.std.specs.Prelude.{◌≡◌, ℕ, List, Option};
ghost use Rattle.text.specs.Cuts.{left, seen, Takes};
ghost use Rattle.text.specs.Fields.{single};
ghost use Rattle.text.specs.Reading.{field as fieldIn};
ghost use Rattle.text.specs.Words.{class, kind, markets, side, status};

use crate::cuts::{cut, split_letter};
use fields::{AccountType, Ground, Kind, Markets, Refusal, Side, Status};

// A value that a whole field writes. The answer is an equation, which a reader of any such value needs; `TryFrom` has a relation.
pub trait FromField: Sized {
    ghost read: { List ℕ → Option Self };

    fn from_field(field: &[u8]) -> Option<Self>
        ensures { result ≡ read field.now };

    // The value of the field that a text begins with, and what follows it. A value that one letter writes looks at no more than two bytes,
    // so that a long field is refused at once.
    fn take(text: &[u8]) -> Option<(Self, &[u8])>
        ensures { Takes read text.now result }
    {
        let (field, rest) = cut(text, b',');
        Some((Self::from_field(field)?, rest))
    }
}

impl FromField for u8 {
    ghost read = { single };

    // any one byte
    fn from_field(field: &[u8]) -> Option<Self> {
        match field {
            [letter] => Some(*letter),
            _ => None,
        }
    }

    fn take(text: &[u8]) -> Option<(Self, &[u8])> {
        split_letter(text)
    }
}

impl FromField for Kind {
    ghost read = { kind };

    // S, D or R
    fn from_field(field: &[u8]) -> Option<Self> {
        match field {
            [b'S'] => Some(Kind::Selic),
            [b'D'] => Some(Kind::Deposited),
            [b'R'] => Some(Kind::Registered),
            _ => None,
        }
    }

    fn take(text: &[u8]) -> Option<(Self, &[u8])> {
        let (letter, rest) = split_letter(text)?;
        Some((Self::from_field(&[letter])?, rest))
    }
}

impl FromField for Side {
    ghost read = { side };

    // B or S
    fn from_field(field: &[u8]) -> Option<Self> {
        match field {
            [b'B'] => Some(Side::Buyer),
            [b'S'] => Some(Side::Seller),
            _ => None,
        }
    }

    fn take(text: &[u8]) -> Option<(Self, &[u8])> {
        let (letter, rest) = split_letter(text)?;
        Some((Self::from_field(&[letter])?, rest))
    }
}

impl FromField for Status {
    ghost read = { status };

    // A or B
    fn from_field(field: &[u8]) -> Option<Self> {
        match field {
            [b'A'] => Some(Status::Active),
            [b'B'] => Some(Status::Blocked),
            _ => None,
        }
    }

    fn take(text: &[u8]) -> Option<(Self, &[u8])> {
        let (letter, rest) = split_letter(text)?;
        Some((Self::from_field(&[letter])?, rest))
    }
}

impl FromField for AccountType {
    ghost read = { class };

    fn from_field(field: &[u8]) -> Option<Self> {
        match field {
            [b'S', b'L'] => Some(AccountType::SL),
            [b'S', b'I'] => Some(AccountType::SI),
            [b'P', b'O'] => Some(AccountType::PO),
            [b'I', b'N'] => Some(AccountType::IN),
            [b'C', b'1'] => Some(AccountType::C1),
            [b'C', b'2'] => Some(AccountType::C2),
            [b'E', b'M'] => Some(AccountType::EM),
            [b'R', b'T'] => Some(AccountType::RT),
            _ => None,
        }
    }
}

impl FromField for Markets {
    ghost read = { markets };

    // S, D and R in this order, at least one of them
    fn from_field(field: &[u8]) -> Option<Self> {
        let selic = field.strip_prefix(b"S");
        let rest = selic.unwrap_or(field);
        let deposited = rest.strip_prefix(b"D");
        let rest = deposited.unwrap_or(rest);
        let registered = rest.strip_prefix(b"R");
        let rest = registered.unwrap_or(rest);
        if field.is_empty() || !rest.is_empty() {
            return None;
        }
        Some(Markets {
            selic: selic.is_some(),
            deposited: deposited.is_some(),
            registered: registered.is_some(),
        })
    }
}

// The value of the next field, which is the field at `place`, and where the reader then stands.
#[tactic(auto, using(crate::proofs::Taken::behind_comma))]
pub fn read_as<T: FromField>(rest: &[u8], place: usize) -> Result<(T, &[u8]), Refusal>
    ensures { fieldIn T.read place (left rest.now) ≡ seen result }
{
    let [b',', text @ ..] = rest else {
        return Err(Ground::FieldCount.at(place));
    };
    let Some((value, rest)) = T::take(text) else {
        return Err(Ground::BadField.at(place));
    };
    Ok((value, rest))
}
