// What a trade, an entry, an intermediation and a pair consist of.
ghost use Rattle.std.specs.Prelude.{◌≡◌};

use crate::account::Party;

// What a trade is of: a Selic title, a deposited asset or a registered security.
#[derive(Clone, Copy, Debug, PartialEq, Eq)]
pub enum Kind {
    Selic,
    Deposited,
    Registered,
}

impl From<Kind> for u8 {
    ghost use Rattle.fields.specs.Letters.{kind_letter};

    ghost from_gives = { λ kind letter. letter ≡ kind_letter kind };

    fn from(kind: Kind) -> u8 {
        match kind {
            Kind::Selic => b'S',
            Kind::Deposited => b'D',
            Kind::Registered => b'R',
        }
    }
}

#[derive(Clone, Copy, Debug, PartialEq, Eq)]
pub enum Side {
    Buyer,
    Seller,
}

impl From<Side> for u8 {
    ghost use Rattle.fields.specs.Letters.{side_letter};

    ghost from_gives = { λ side letter. letter ≡ side_letter side };

    fn from(side: Side) -> u8 {
        match side {
            Side::Buyer => b'B',
            Side::Seller => b'S',
        }
    }
}

// A trade as captured; `settlement` is its settlement day.
#[derive(Clone, Copy, Debug, PartialEq, Eq)]
pub struct Terms {
    pub number: u32,
    pub kind: Kind,
    pub asset: u32,
    pub quantity: u32,
    pub settlement: u32,
    pub buyer: Party,
    pub seller: Party,
}

// One entry of an inclusion; client 0 is not given. No `Option` here or in a leg: lines and the rows that a caller lends have 0 for nothing.
#[derive(Clone, Copy, Debug, Default, PartialEq, Eq)]
pub struct Entry {
    pub account: u32,
    pub quantity: u32,
    pub client: u32,
}

// Holds the buyer side of the bought trade and the seller side of the sold one; a leg 0 is absent.
#[derive(Clone, Copy, Debug, PartialEq, Eq)]
pub struct Intermediation {
    pub id: u32,
    pub participant: u32,
    pub account: u32,
    pub bought: u32,
    pub sold: u32,
}

// A numbered pair of the two ends of a chain: its first and last trade, the seller's and the buyer's account.
#[derive(Clone, Copy, Debug, PartialEq, Eq)]
pub struct Pair {
    pub number: u64,
    pub first: u32,
    pub seller: u32,
    pub last: u32,
    pub buyer: u32,
    pub quantity: u32,
}
