// Sides, and the legs of an intermediation.
ghost use Rattle.std.specs.Prelude.{◌≡◌};
ghost use Rattle.rows.specs.Allocations.{other};
ghost use Rattle.rows.specs.Legs.{any_leg, leg};

use fields::{Intermediation, Side};

pub fn other_side(side: Side) -> Side
    ensures { result ≡ other side }
{
    match side {
        Side::Buyer => Side::Seller,
        Side::Seller => Side::Buyer,
    }
}

// The trade whose buyer side, or whose seller side, the intermediation holds; 0 for none. What picks by the side is a match of two arms each time:
// a generic pick would be one more such match, with its callers as long as they are.
pub fn leg_of(intermediation: &Intermediation, side: Side) -> u32
    ensures { result ≡ leg side intermediation.now }
{
    match side {
        Side::Buyer => intermediation.bought,
        Side::Seller => intermediation.sold,
    }
}

// One of the legs, the bought one if it is there.
pub fn any_leg_of(intermediation: &Intermediation) -> u32
    ensures { result ≡ any_leg intermediation.now }
{
    if intermediation.bought != 0 {
        intermediation.bought
    } else {
        intermediation.sold
    }
}
