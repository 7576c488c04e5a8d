ghost use Rattle.std.specs.Prelude.{◌≡◌, ◌≤◌, [], ◌∷◌, length};
ghost use Rattle.requests.specs.Tests.{call_tests, entry_tests, fields_pass, sold_range, tested};
ghost use Rattle.requests.specs.declared.request.Request.TheVariants.{Capture, Include, Intermediate};

use crate::request::{Inclusion, NewIntermediation, NewTrade, Request};
use fields::range::{ACCOUNT, DAY, ENTRIES, MINUTE, NUMBER, NUMBER_OR_NONE, PARTICIPANT, QUANTITY};
use fields::{Entry, Range, Refusal};

// C
fn check_new_trade(c: &NewTrade) -> Result<(), Refusal>
    ensures { result ≡ fields_pass (Capture c.now) }
{
    let t = &c.terms;
    MINUTE.test(c.minute as u64, 2)?;
    NUMBER.test(t.number as u64, 3)?;
    NUMBER.test(t.asset as u64, 5)?;
    QUANTITY.test(t.quantity as u64, 6)?;
    DAY.test(t.settlement as u64, 7)?;
    PARTICIPANT.test(t.buyer.participant as u64, 8)?;
    PARTICIPANT.test(t.buyer.offeror as u64, 9)?;
    PARTICIPANT.test(t.seller.participant as u64, 10)?;
    PARTICIPANT.test(t.seller.offeror as u64, 11)
}

fn check_entry(place: usize, e: &Entry) -> Result<(), Refusal>
    requires { place ≤ 53 }
    ensures { result ≡ tested (entry_tests place (e.now ∷ [])) }
{
    ACCOUNT.test(e.account as u64, place)?;
    QUANTITY.test(e.quantity as u64, place + 1)?;
    NUMBER_OR_NONE.test(e.client as u64, place + 2)
}

fn check_entries(entries: &[Entry]) -> Result<(), Refusal>
    requires { length entries.now ≤ 16 }
    ensures { result ≡ tested (entry_tests 8 entries.now) }
{
    for (i, entry) in entries.iter().enumerate() {
        check_entry(8 + 3 * i, entry)?;
    }
    Ok(())
}

// I
fn check_inclusion(c: &Inclusion) -> Result<(), Refusal>
    ensures { result ≡ fields_pass (Include c.entry.now) }
{
    MINUTE.test(c.minute as u64, 2)?;
    PARTICIPANT.test(c.participant as u64, 3)?;
    NUMBER.test(c.trade as u64, 4)?;
    ENTRIES.test(c.count as u64, 7)?;
    check_entries(&c.entries[0..c.count])
}

// What D, F, G and E begin with: the minute, the caller, and a trade or an intermediation.
fn check_call(minute: u32, participant: u32, number: u32) -> Result<(), Refusal>
    ensures { result ≡ tested (call_tests minute participant number) }
{
    MINUTE.test(minute as u64, 2)?;
    PARTICIPANT.test(participant as u64, 3)?;
    NUMBER.test(number as u64, 4)
}

// The range of the sold leg: one leg may be 0, and not both.
pub fn sold_range(bought: u32) -> Range
    ensures { result ≡ sold_range bought }
{
    if bought == 0 { NUMBER } else { NUMBER_OR_NONE }
}

// J
fn check_new_intermediation(c: &NewIntermediation) -> Result<(), Refusal>
    ensures { result ≡ fields_pass (Intermediate c.entry.now) }
{
    let i = &c.intermediation;
    MINUTE.test(c.minute as u64, 2)?;
    PARTICIPANT.test(i.participant as u64, 3)?;
    NUMBER.test(i.id as u64, 4)?;
    ACCOUNT.test(i.account as u64, 5)?;
    NUMBER_OR_NONE.test(i.bought as u64, 6)?;
    sold_range(i.bought).test(i.sold as u64, 7)
}

// Tests the fields of a request from left to right; the places are those of its line.
pub fn check_fields(request: &Request) -> Result<(), Refusal>
    ensures { result ≡ fields_pass request.now }
{
    match request {
        Request::Capture(c) => check_new_trade(c),
        Request::Cancel(c) => {
            MINUTE.test(c.minute as u64, 2)?;
            NUMBER.test(c.trade as u64, 3)
        }
        Request::Include(c) => check_inclusion(c),
        Request::Remove(c) | Request::Confirm(c) => check_call(c.minute, c.participant, c.trade),
        Request::Intermediate(c) => check_new_intermediation(c),
        Request::ConfirmIntermediation(c) | Request::ExcludeIntermediation(c) => {
            check_call(c.minute, c.participant, c.id)
        }
        Request::Close(c) => {
            MINUTE.test(c.minute as u64, 2)?;
            DAY.test(c.day as u64, 3)
        }
    }
}
