// A trade as the book keeps it. Intermediations and pairs are kept as they are (see the crate `fields`).
use fields::{AccountType, Entry, Terms};

// An entry as it is kept: with the account type found when it was included.
#[derive(Clone, Copy, Debug, PartialEq, Eq)]
pub struct KeptEntry {
    pub entry: Entry,
    pub found: AccountType,
}

#[derive(Clone, Copy, Debug, PartialEq, Eq)]
pub enum AllocationState {
    Empty,
    Allocated,
    Confirmed,
}

// What stands on a side of a trade: its first `count` entries, and the intermediation that holds the side, or 0.
// Rows are lent tables of plain numbers, so 0 stands for no intermediation, and the count beside the entries.
#[derive(Clone, Copy, Debug, PartialEq, Eq)]
pub struct Allocation {
    pub state: AllocationState,
    pub tie: u32,
    pub count: usize,
    pub entries: [KeptEntry; 16],
}

#[derive(Clone, Copy, Debug, PartialEq, Eq)]
pub enum TradeState {
    Open,
    Cancelled,
    Numbered,
}

// A row of the trades; `marked` says that it is cancelled only in the trading system.
#[derive(Clone, Copy, Debug, PartialEq, Eq)]
pub struct Trade {
    pub terms: Terms,
    pub state: TradeState,
    pub marked: bool,
    pub buyer: Allocation,
    pub seller: Allocation,
}
