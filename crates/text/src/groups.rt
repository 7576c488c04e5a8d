// Several fields that are read as one value, and tables of such values.
ghost use Rattle.std.specs.Prelude.{◌≡◌, ◌+◌, ◌*◌, ◌^◌, ◌<◌, ◌≤◌, length};
ghost use Rattle.text.specs.Cuts.{left, seen};
ghost use Rattle.text.specs.Groups.{GroupOf, entry_group, filled, party_group, values};

use crate::next::read_u32;
use fields::range::{ACCOUNT, NUMBER_OR_NONE, PARTICIPANT, QUANTITY};
use fields::{Entry, Party, Refusal};

// A value that several fields write.
pub trait Group: Copy {
    ghost group: { GroupOf Self };

    // How many fields it has.
    fn width() -> usize
        ensures { result ≡ group.width };

    // The value from the fields at `place` on, and where the reader then stands.
    fn read(rest: &[u8], place: usize) -> Result<(Self, &[u8]), Refusal>
        requires { place + group.width < 2 ^ 64 }
        ensures { group.read place (left rest.now) ≡ seen result };
}

// participant,offeror
impl Group for Party {
    ghost group = { party_group };

    fn width() -> usize {
        2
    }

    fn read(rest: &[u8], place: usize) -> Result<(Self, &[u8]), Refusal> {
        let (participant, rest) = read_u32(rest, place, PARTICIPANT)?;
        let (offeror, rest) = read_u32(rest, place + 1, PARTICIPANT)?;
        let party = Party {
            participant,
            offeror,
        };
        Ok((party, rest))
    }
}

// account,quantity,client
impl Group for Entry {
    ghost group = { entry_group };

    fn width() -> usize {
        3
    }

    fn read(rest: &[u8], place: usize) -> Result<(Self, &[u8]), Refusal> {
        let (account, rest) = read_u32(rest, place, ACCOUNT)?;
        let (quantity, rest) = read_u32(rest, place + 1, QUANTITY)?;
        let (client, rest) = read_u32(rest, place + 2, NUMBER_OR_NONE)?;
        let entry = Entry {
            account,
            quantity,
            client,
        };
        Ok((entry, rest))
    }
}

// Fills the slots with the values from the fields at `first` on; gives where the reader then stands.
// The caller lends the slots: a function that returns a generic table beside a slice gets no proof yet.
pub fn read_into<'a, T: Group>(
    text: &'a [u8],
    first: usize,
    slots: &mut [T],
) -> Result<&'a [u8], Refusal>
    requires { first + T.group.width * length slots.old < 2 ^ 64 }
    ensures { values T.group (length slots.old) first (left text.now) ≡ filled slots.new result }
{
    let mut rest = text;
    // The place moves by the width: a product with an index would want a proof that it fits.
    let mut place = first;
    for slot in slots.iter_mut() {
        let (value, behind) = T::read(rest, place)?;
        *slot = value;
        rest = behind;
        place += T::width();
    }
    Ok(rest)
}
