// What may happen to a side, and what becomes of it.
ghost use Rattle.std.specs.Prelude.{◌≡◌, ◌<◌, ◌≤◌, length};
ghost use Rattle.rows.specs.Allocations.{blank_allocation, held, is_confirmed, is_empty};
ghost use Rattle.rows.specs.Machine.{after, with_entry};

use crate::row::{Allocation, AllocationState, KeptEntry};
use fields::{AccountType, Entry};

// The first entries of the table are included, their number given; all are removed; they are confirmed;
// or the first is tied to an intermediation, its id given.
#[derive(Clone, Copy, Debug, PartialEq, Eq)]
pub enum Event {
    Include(usize),
    Remove,
    Confirm,
    Tie(u32),
}

const NO_ENTRY: KeptEntry = KeptEntry {
    entry: Entry {
        account: 0,
        quantity: 0,
        client: 0,
    },
    found: AccountType::SL,
};

impl Allocation {
    // An empty side with a blank table.
    pub fn blank() -> Self
        ensures { result ≡ blank_allocation }
    {
        Allocation {
            state: AllocationState::Empty,
            tie: 0,
            count: 0,
            entries: [NO_ENTRY; 16],
        }
    }

    pub fn is_empty(&self) -> bool
        ensures { result ≡ is_empty self.now.state }
    {
        self.state == AllocationState::Empty
    }

    pub fn is_confirmed(&self) -> bool
        ensures { result ≡ is_confirmed self.now.state }
    {
        self.state == AllocationState::Confirmed
    }

    // The entries that the side holds, whatever its count says.
    pub fn held(&self) -> &[KeptEntry]
        ensures value { result.now ≡ held self.now }
        ensures few { length result.now ≤ 16 }
    {
        if self.is_empty() {
            return &[];
        }
        &self.entries[..self.count.min(16)]
    }

    // Puts one entry into the table.
    pub fn put(&mut self, at: usize, entry: KeptEntry)
        requires { at < 16 }
        ensures { self.new ≡ with_entry at entry self.old }
    {
        self.entries[at] = entry;
    }

    // The side machine. An empty side cannot be confirmed; every other event is possible in every state.
    pub fn happen(&mut self, event: Event)
        ensures { self.new ≡ after event self.old }
    {
        match (self.state, event) {
            (_, Event::Include(count)) => self.set(AllocationState::Allocated, 0, count),
            (_, Event::Tie(id)) => self.set(AllocationState::Allocated, id, 1),
            (AllocationState::Empty, Event::Confirm) => {}
            (_, Event::Confirm) => self.state = AllocationState::Confirmed,
            (_, Event::Remove) => self.set(AllocationState::Empty, 0, 0),
        }
    }

    fn set(&mut self, state: AllocationState, tie: u32, count: usize)
        ensures { self.new ≡ record { state = state; tie = tie; count = count; entries = self.old.entries } }
    {
        self.state = state;
        self.tie = tie;
        self.count = count;
    }
}
