// A row of the trades, read and changed.
ghost use Rattle.std.specs.Prelude.{◌≡◌, ◌<◌};
ghost use Rattle.std.specs.Borrow.{sem};
ghost use Rattle.rows.specs.Lending.{LendsSide};
ghost use Rattle.rows.specs.Machine.{after, with_entry};
ghost use Rattle.rows.specs.Trades.{allocation, at_side, both_confirmed, cancelled, captured, is_cancelled, is_numbered, marked, numbered, party};

use crate::machine::Event;
use crate::row::{Allocation, KeptEntry, Trade, TradeState};
use fields::{Party, Side, Terms};

// Who stands on a side.
pub fn party_of(terms: &Terms, side: Side) -> Party
    ensures { result ≡ party side terms.now }
{
    match side {
        Side::Buyer => terms.buyer,
        Side::Seller => terms.seller,
    }
}

impl Trade {
    // A trade as it is captured: open, with both sides empty.
    pub fn capture(terms: Terms) -> Self
        ensures { result ≡ captured terms }
    {
        Trade {
            terms,
            state: TradeState::Open,
            marked: false,
            buyer: Allocation::blank(),
            seller: Allocation::blank(),
        }
    }

    pub fn is_cancelled(&self) -> bool
        ensures { result ≡ is_cancelled self.now.state }
    {
        self.state == TradeState::Cancelled
    }

    pub fn is_numbered(&self) -> bool
        ensures { result ≡ is_numbered self.now.state }
    {
        self.state == TradeState::Numbered
    }

    pub fn is_confirmed(&self) -> bool
        ensures { result ≡ both_confirmed self.now }
    {
        self.buyer.is_confirmed() && self.seller.is_confirmed()
    }

    pub fn side(&self, side: Side) -> &Allocation
        ensures { result.now ≡ allocation side self.now }
    {
        match side {
            Side::Buyer => &self.buyer,
            Side::Seller => &self.seller,
        }
    }

    fn side_mut(&mut self, side: Side) -> &mut Allocation
        ensures* writes_back { sem 𝓛 (LendsSide self.entry side result) }
        ensures value { result.now ≡ allocation side self.old }
    {
        match side {
            Side::Buyer => &mut self.buyer,
            Side::Seller => &mut self.seller,
        }
    }

    // Puts one entry into the table of a side.
    pub fn put_entry(&mut self, side: Side, at: usize, entry: KeptEntry)
        requires { at < 16 }
        ensures { self.new ≡ at_side side (with_entry at entry) self.old }
    {
        self.side_mut(side).put(at, entry);
    }

    // Lets an event happen to a side.
    pub fn happen(&mut self, side: Side, event: Event)
        ensures row { self.new ≡ at_side side (after event) self.old }
        ensures terms { self.new.terms ≡ self.old.terms }
    {
        self.side_mut(side).happen(event);
    }

    // All its sides are confirmed, and its pairs are written.
    pub fn number(&mut self)
        ensures { self.new ≡ numbered self.old }
    {
        self.state = TradeState::Numbered;
    }

    // It is cancelled in the trading system only.
    pub fn mark(&mut self)
        ensures { self.new ≡ marked self.old }
    {
        self.marked = true;
    }

    // It is cancelled, and its sides are emptied.
    pub fn cancel(&mut self)
        ensures { self.new ≡ cancelled self.old }
    {
        self.buyer.happen(Event::Remove);
        self.seller.happen(Event::Remove);
        self.state = TradeState::Cancelled;
        self.marked = false;
    }
}
