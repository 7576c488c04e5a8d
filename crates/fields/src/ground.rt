ghost use Rattle.std.specs.Prelude.{◌≡◌};
ghost use Rattle.fields.specs.Grounds.{number_of};
ghost use Rattle.fields.specs.Refusals.{refused};

use crate::answer::Refusal;

// Why a request is refused. Declared in the order of their numbers, which begin at 1.
#[derive(Clone, Copy, Debug, PartialEq, Eq)]
pub enum Ground {
    UnknownLetter = 1,
    BadField,
    FieldCount,
    BadTables,
    TradePresent,
    TradesFull,
    NoTrade,
    TradeCancelled,
    BrokenChain,
    SettlesBefore,
    TooLate,
    NoClosing,
    NotOwner,
    AlreadyConfirmed,
    SideTied,
    SideEmpty,
    NoAccount,
    AccountInactive,
    AccountUnsuited,
    AccountUntied,
    AccountOpposite,
    ClientOpposite,
    WrongSum,
    AmongSeveral,
    OutsideIntermediation,
    IntermediationPresent,
    IntermediationsFull,
    NoIntermediation,
    LegsDiffer,
    ChainTooLong,
    ChainNumbered,
    TooFewNumbers,
    PairsFull,
    EndsEarly,
    HoldsFull,
    NoPair,
    BufferShort,
}

impl Ground {
    // The number that stands for the ground in a written refusal.
    pub fn number(self) -> u8
        ensures { result ≡ number_of self }
    {
        self as u8
    }

    // The refusal on this ground at a place.
    pub fn at(self, place: usize) -> Refusal
        ensures { result ≡ refused self place }
    {
        Refusal {
            ground: self,
            place,
        }
    }
}
