// Following a chain by the places of its trades.
ghost use Rattle.std.specs.Prelude.{◌≡◌, List, Some, None, MatchResult};
ghost use Rattle.fields.specs.Refusals.{refused};
ghost use Rattle.fields.specs.declared.ground.Ground.TheVariants.{BrokenChain};
ghost use Rattle.keyed.specs.Members.{Each};
ghost use Rattle.keyed.specs.Rows.{find as found};
ghost use Rattle.rows.specs.Legs.{id as key};
ghost use Rattle.rows.specs.Trades.{allocation, number as number_in};
ghost use Rattle.chains.specs.Following.{beyond as beyond_by, by_intermediation, chain as chain_by, together as together_by, way as way_by};
ghost use Rattle.chains.specs.Places.{Findable, Followed, NextFindable, PlacedIf, WayFindable, beyond_at, chain_with, number_at, numbers_at, numbers_on, places_of, places_on, standing_of, ties_of, ties_with};

use fields::{Ground, Intermediation, Refusal, Side};
use keyed::find;
use rows::{Trade, leg_of, other_side};

// A tie leads to no row or not back, or a chain does not end within three trades.
#[derive(Clone, Copy, Debug, PartialEq, Eq)]
struct Broken;

// The places of the trades met on the way over one side; three variants and no list, since `together` tells them apart.
#[derive(Clone, Copy, Debug, PartialEq, Eq)]
enum Way {
    Here,
    One(usize),
    Two(usize, usize),
}

// The lent tables, seen as they will stand once `new` is entered. A place is `Findable` by a `requires`: a type for that would carry the trades
// along with every place.
#[derive(Clone, Copy)]
struct Ties<'a> {
    trades: &'a [Trade],
    intermediations: &'a [Intermediation],
    new: Option<Intermediation>,
}

impl Ties<'_> {
    // The intermediation that holds a side of a trade, 0 for none, as the rows have it.
    fn tie(&self, trade: &Trade, side: Side) -> u32
        ensures { ties_with self.now.new (λ w n. Some (allocation w trade.now).tie) side (number_in trade.now) ≡ Some result }
    {
        match self.new {
            Some(entering) if leg_of(&entering, side) == trade.terms.number => entering.id,
            _ => trade.side(side).tie,
        }
    }

    // The intermediation with this id.
    #[tactic(auto, using(keyed::proofs::Keys::found_entered))]
    fn standing(&self, id: u32) -> Option<Intermediation>
        ensures { result ≡ found key id (standing_of self.now) }
    {
        match self.new {
            Some(entering) if entering.id == id => self.new,
            _ => find(self.intermediations, id as u64).map(|at| self.intermediations[at]),
        }
    }

    // The place of the trade to which an intermediation leads that the side of trade `number` is tied to, if it leads on.
    fn led(&self, side: Side, number: u32, by: &Intermediation) -> Result<Option<usize>, Broken>
        ensures findable { NextFindable self.now.trades.now result }
        ensures value { beyond_at self.now.trades.now result ≡ by_intermediation (ties_of self.now) side number (Some by.now) }
    {
        if leg_of(by, side) != number {
            return Err(Broken);
        }
        let onward = leg_of(by, other_side(side));
        if onward == 0 {
            return Ok(None);
        }
        let at = find(self.trades, onward as u64).ok_or(Broken)?;
        if self.tie(&self.trades[at], other_side(side)) != by.id {
            return Err(Broken);
        }
        Ok(Some(at))
    }

    // The place of the trade beyond a side of the trade at a place, if there is one.
    #[tactic(auto, unfolding(crate::specs::Following::beyond))]
    fn beyond(&self, side: Side, at: usize) -> Result<Option<usize>, Broken>
        requires { Findable self.now.trades.now at }
        ensures findable { NextFindable self.now.trades.now result }
        ensures value { beyond_at self.now.trades.now result ≡ beyond_by (ties_of self.now) (standing_of self.now) side (number_at self.now.trades.now at) }
    {
        let id = self.tie(&self.trades[at], side);
        if id == 0 {
            return Ok(None);
        }
        let by = self.standing(id).ok_or(Broken)?;
        self.led(side, self.trades[at].terms.number, &by)
    }

    // The trades met over one side of the trade at a place; broken too if the way leads to a third one.
    #[tactic(auto, unfolding(crate::specs::Following::way))]
    fn way_over(&self, side: Side, at: usize) -> Result<Way, Broken>
        requires { Findable self.now.trades.now at }
        ensures findable { WayFindable self.now.trades.now result }
        ensures value { numbers_on self.now.trades.now result ≡ way_by (ties_of self.now) (standing_of self.now) side 3 (number_at self.now.trades.now at) }
    {
        let Some(near) = self.beyond(side, at)? else {
            return Ok(Way::Here);
        };
        let Some(far) = self.beyond(side, near)? else {
            return Ok(Way::One(near));
        };
        match self.beyond(side, far)? {
            None => Ok(Way::Two(near, far)),
            Some(_) => Err(Broken),
        }
    }

    // The chain of the trade at a place: the places of its first, its middle and its last trade, and its length.
    #[tactic(auto, unfolding(crate::specs::Following::chain))]
    fn chain(&self, at: usize) -> Result<(usize, usize, usize, usize), Broken>
        requires { Findable self.now.trades.now at }
        ensures { PlacedIf self.now.trades.now (chain_by (ties_of self.now) (standing_of self.now) (number_at self.now.trades.now at)) result }
    {
        let back = self.way_over(Side::Seller, at)?;
        let ahead = self.way_over(Side::Buyer, at)?;
        together(back, at, ahead)
    }
}

// Both ways together, if they are at most three trades.
fn together(back: Way, at: usize, ahead: Way) -> Result<(usize, usize, usize, usize), Broken>
    ensures { (ts : List Trade) → Each (Findable ts) (places_on back) → Findable ts at → Each (Findable ts) (places_on ahead) → PlacedIf ts (together_by (Some (numbers_at ts (places_on back))) (number_at ts at) (Some (numbers_at ts (places_on ahead)))) result }
{
    match (back, ahead) {
        (Way::Here, Way::Here) => Ok((at, at, at, 1)),
        (Way::Here, Way::One(last)) => Ok((at, at, last, 2)),
        (Way::Here, Way::Two(middle, last)) => Ok((at, middle, last, 3)),
        (Way::One(first), Way::Here) => Ok((first, first, at, 2)),
        (Way::One(first), Way::One(last)) => Ok((first, at, last, 3)),
        (Way::Two(middle, first), Way::Here) => Ok((first, middle, at, 3)),
        (Way::One(_), Way::Two(_, _)) | (Way::Two(_, _), Way::One(_) | Way::Two(_, _)) => Err(
            Broken,
        ),
    }
}

// Follows the chain of the trade at a place both ways, once `new` is entered: the places of its first, its middle and its last trade, and
// its length. It is refused if a tie leads to no row or not back, or if it does not end within three trades.
pub fn follow(
    trades: &[Trade],
    intermediations: &[Intermediation],
    new: Option<Intermediation>,
    at: usize,
    place: usize,
) -> Result<(usize, usize, usize, usize), Refusal>
    requires { Findable trades.now at }
    ensures { MatchResult result (Followed new trades.now intermediations.now (number_at trades.now at)) (λ f. (chain_with new trades.now intermediations.now (number_at trades.now at) ≡ None) × (f ≡ refused BrokenChain place)) }
{
    Ties {
        trades,
        intermediations,
        new,
    }
    .chain(at)
    .map_err(|_| Ground::BrokenChain.at(place))
}
