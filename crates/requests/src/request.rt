// What can be asked of the book. Any numbers may stand in a request: they are tested when it is answered.
use fields::{Entry, Intermediation, Side, Terms};

// C: captures a trade.
#[derive(Clone, Copy, Debug, PartialEq, Eq)]
pub struct NewTrade {
    pub minute: u32,
    pub terms: Terms,
}

// X: cancels a trade.
#[derive(Clone, Copy, Debug, PartialEq, Eq)]
pub struct Cancellation {
    pub minute: u32,
    pub trade: u32,
}

// I: the first `count` entries replace those of the side; `now` also confirms it. The count stands beside a fixed table, since a caller
// may hand in any count, which is then refused, and nothing is allocated.
#[derive(Clone, Copy, Debug, PartialEq, Eq)]
pub struct Inclusion {
    pub minute: u32,
    pub participant: u32,
    pub trade: u32,
    pub side: Side,
    pub now: bool,
    pub count: usize,
    pub entries: [Entry; 16],
}

// D and F: empties or confirms one side of a trade.
#[derive(Clone, Copy, Debug, PartialEq, Eq)]
pub struct SideCall {
    pub minute: u32,
    pub participant: u32,
    pub trade: u32,
    pub side: Side,
}

// J: enters an intermediation; `now` also confirms its sides.
#[derive(Clone, Copy, Debug, PartialEq, Eq)]
pub struct NewIntermediation {
    pub minute: u32,
    pub intermediation: Intermediation,
    pub now: bool,
}

// G and E: confirms or excludes an intermediation.
#[derive(Clone, Copy, Debug, PartialEq, Eq)]
pub struct IntermediationCall {
    pub minute: u32,
    pub participant: u32,
    pub id: u32,
}

// Z: closes the day and moves the book to a later one.
#[derive(Clone, Copy, Debug, PartialEq, Eq)]
pub struct Closing {
    pub minute: u32,
    pub day: u32,
}

#[derive(Clone, Copy, Debug, PartialEq, Eq)]
pub enum Request {
    Capture(NewTrade),
    Cancel(Cancellation),
    Include(Inclusion),
    Remove(SideCall),
    Confirm(SideCall),
    Intermediate(NewIntermediation),
    ConfirmIntermediation(IntermediationCall),
    ExcludeIntermediation(IntermediationCall),
    Close(Closing),
}
