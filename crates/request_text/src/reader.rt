ghost use Rattle.std.specs.Prelude.{◌≡◌, true, IfOk, IfErr, Some, Ok};
ghost use Rattle.fields.specs.Grounds.{may_stand};
ghost use Rattle.requests.specs.Tests.{fields_pass};
ghost use Rattle.text.specs.Cuts.{left};
ghost use Rattle.request_text.specs.Lines.{by_letter, cancel_line, capture_line, close_line, include_line, intermediate_line, intermediation_call_line, request as requestOf, side_call_line};

use fields::range::{
    ACCOUNT, DAY, ENTRIES, FLAG, MINUTE, NUMBER, NUMBER_OR_NONE, PARTICIPANT, QUANTITY,
};
use fields::{Entry, Ground, Intermediation, Party, Refusal, Terms};
use requests::{
    Cancellation, Closing, Inclusion, IntermediationCall, NewIntermediation, NewTrade, Request,
    SideCall, sold_range,
};
use text::{Group, read_as, read_end, read_into, read_u32, split_letter};

// Each reader of a line takes its fields in turn and leaves at the first fault; so they are alike, and none is longer than its line.

// C,minute,trade,kind,asset,quantity,settlement,buyer,its offeror,seller,its offeror
fn read_capture(rest: &[u8]) -> Result<Request, Refusal>
    ensures { result ≡ capture_line (left rest.now) }
{
    let (minute, rest) = read_u32(rest, 2, MINUTE)?;
    let (number, rest) = read_u32(rest, 3, NUMBER)?;
    let (kind, rest) = read_as(rest, 4)?;
    let (asset, rest) = read_u32(rest, 5, NUMBER)?;
    let (quantity, rest) = read_u32(rest, 6, QUANTITY)?;
    let (settlement, rest) = read_u32(rest, 7, DAY)?;
    let (buyer, rest) = Party::read(rest, 8)?;
    let (seller, rest) = Party::read(rest, 10)?;
    read_end(rest, 12)?;
    let terms = Terms {
        number,
        kind,
        asset,
        quantity,
        settlement,
        buyer,
        seller,
    };
    Ok(Request::Capture(NewTrade { minute, terms }))
}

// X,minute,trade
fn read_cancel(rest: &[u8]) -> Result<Request, Refusal>
    ensures { result ≡ cancel_line (left rest.now) }
{
    let (minute, rest) = read_u32(rest, 2, MINUTE)?;
    let (trade, rest) = read_u32(rest, 3, NUMBER)?;
    read_end(rest, 4)?;
    Ok(Request::Cancel(Cancellation { minute, trade }))
}

// I,minute,participant,trade,side,now,n and n entries
fn read_include(rest: &[u8]) -> Result<Request, Refusal>
    ensures { result ≡ include_line (left rest.now) }
{
    let (minute, rest) = read_u32(rest, 2, MINUTE)?;
    let (participant, rest) = read_u32(rest, 3, PARTICIPANT)?;
    let (trade, rest) = read_u32(rest, 4, NUMBER)?;
    let (side, rest) = read_as(rest, 5)?;
    let (flag, rest) = read_u32(rest, 6, FLAG)?;
    let (count, rest) = read_u32(rest, 7, ENTRIES)?;
    let count = count as usize;
    let mut entries = [Entry::default(); 16];
    let rest = read_into(rest, 8, &mut entries[..count])?;
    read_end(rest, 8 + 3 * count)?;
    Ok(Request::Include(Inclusion {
        minute,
        participant,
        trade,
        side,
        // a line has a number, 0 or 1, for it
        now: flag == 1,
        count,
        entries,
    }))
}

// minute,participant,trade,side
fn read_side_call(rest: &[u8]) -> Result<SideCall, Refusal>
    ensures { result ≡ side_call_line (left rest.now) }
{
    let (minute, rest) = read_u32(rest, 2, MINUTE)?;
    let (participant, rest) = read_u32(rest, 3, PARTICIPANT)?;
    let (trade, rest) = read_u32(rest, 4, NUMBER)?;
    let (side, rest) = read_as(rest, 5)?;
    read_end(rest, 6)?;
    Ok(SideCall {
        minute,
        participant,
        trade,
        side,
    })
}

// J,minute,participant,id,account,bought,sold,now
fn read_intermediate(rest: &[u8]) -> Result<Request, Refusal>
    ensures { result ≡ intermediate_line (left rest.now) }
{
    let (minute, rest) = read_u32(rest, 2, MINUTE)?;
    let (participant, rest) = read_u32(rest, 3, PARTICIPANT)?;
    let (id, rest) = read_u32(rest, 4, NUMBER)?;
    let (account, rest) = read_u32(rest, 5, ACCOUNT)?;
    let (bought, rest) = read_u32(rest, 6, NUMBER_OR_NONE)?;
    let (sold, rest) = read_u32(rest, 7, sold_range(bought))?;
    let (flag, rest) = read_u32(rest, 8, FLAG)?;
    read_end(rest, 9)?;
    let intermediation = Intermediation {
        id,
        participant,
        account,
        bought,
        sold,
    };
    Ok(Request::Intermediate(NewIntermediation {
        minute,
        intermediation,
        // a line has a number, 0 or 1, for it
        now: flag == 1,
    }))
}

// minute,participant,id
fn read_intermediation_call(rest: &[u8]) -> Result<IntermediationCall, Refusal>
    ensures { result ≡ intermediation_call_line (left rest.now) }
{
    let (minute, rest) = read_u32(rest, 2, MINUTE)?;
    let (participant, rest) = read_u32(rest, 3, PARTICIPANT)?;
    let (id, rest) = read_u32(rest, 4, NUMBER)?;
    read_end(rest, 5)?;
    Ok(IntermediationCall {
        minute,
        participant,
        id,
    })
}

// Z,minute,day
fn read_close(rest: &[u8]) -> Result<Request, Refusal>
    ensures { result ≡ close_line (left rest.now) }
{
    let (minute, rest) = read_u32(rest, 2, MINUTE)?;
    let (day, rest) = read_u32(rest, 3, DAY)?;
    read_end(rest, 4)?;
    Ok(Request::Close(Closing { minute, day }))
}

// The request that the letter stands for, from the fields behind it.
fn read_fields(letter: u8, rest: &[u8]) -> Result<Request, Refusal>
    ensures { result ≡ by_letter (Some letter) (left rest.now) }
{
    match letter {
        b'C' => read_capture(rest),
        b'X' => read_cancel(rest),
        b'I' => read_include(rest),
        b'D' => read_side_call(rest).map(Request::Remove),
        b'F' => read_side_call(rest).map(Request::Confirm),
        b'J' => read_intermediate(rest),
        b'G' => read_intermediation_call(rest).map(Request::ConfirmIntermediation),
        b'E' => read_intermediation_call(rest).map(Request::ExcludeIntermediation),
        b'Z' => read_close(rest),
        _ => Err(Ground::UnknownLetter.at(1)),
    }
}

// What a request line asks, or why it is refused. What is read passes the tests of a direct call,
// and a refusal stands at a place of its ground.
#[tactic(auto, using(crate::proofs::Taken::request_is))]
pub fn read_request(line: &[u8]) -> Result<Request, Refusal>
    ensures value { result ≡ requestOf line.now }
    ensures passes { IfOk result (λ v. fields_pass v ≡ Ok tt) }
    ensures placed { IfErr result (λ f. may_stand f.ground f.place ≡ true) }
{
    let Some((letter, rest)) = split_letter(line) else {
        return Err(Ground::UnknownLetter.at(1));
    };
    read_fields(letter, rest)
}
