ghost use Rattle.std.specs.Prelude.{◌≡◌, [], ◌∷◌};
ghost use Rattle.requests.specs.declared.request.Request.TheVariants.{Capture, Include, Intermediate};
ghost use Rattle.request_text.specs.Lines.{request as requestOf};
ghost use Rattle.probe.specs.Digest.{digest, entries_from, kind_code, mix as mixed, mix_all, of_request, side_code, weight};

use fields::{Entry, Kind, Side};
use request_text::read_request;
use requests::{Inclusion, IntermediationCall, NewIntermediation, NewTrade, Request, SideCall};

// Folds one more number into a digest.
fn mix(h: u64, x: u64) -> u64
    ensures { result ≡ mixed h x }
{
    h.wrapping_mul(31).wrapping_add(x)
}

fn mix_all(start: u64, numbers: &[u64]) -> u64
    ensures { result ≡ mix_all start numbers.now }
{
    numbers.iter().fold(start, |h, x| mix(h, *x))
}

fn entry_weight(e: &Entry) -> u64
    ensures { result ≡ weight e.now }
{
    e.account as u64 + 3 * (e.quantity as u64) + 7 * (e.client as u64)
}

fn add_entries(start: u64, entries: &[Entry]) -> u64
    ensures { result ≡ entries_from start entries.now }
{
    entries
        .iter()
        .fold(start, |h, e| h.wrapping_add(entry_weight(e)))
}

fn kind_code(kind: Kind) -> u64
    ensures { result ≡ kind_code kind }
{
    kind as u64 + 1
}

fn side_code(side: Side) -> u64
    ensures { result ≡ side_code side }
{
    side as u64 + 1
}

fn of_new_trade(c: &NewTrade) -> u64
    ensures { result ≡ of_request (Capture c.now) }
{
    let t = &c.terms;
    mix_all(
        1,
        &[
            c.minute as u64,
            t.number as u64,
            kind_code(t.kind),
            t.asset as u64,
            t.quantity as u64,
            t.settlement as u64,
            t.buyer.participant as u64,
            t.buyer.offeror as u64,
            t.seller.participant as u64,
            t.seller.offeror as u64,
        ],
    )
}

fn of_inclusion(c: &Inclusion) -> u64
    ensures { result ≡ of_request (Include c.entry.now) }
{
    let head = [
        c.minute as u64,
        c.participant as u64,
        c.trade as u64,
        side_code(c.side),
        u64::from(c.now),
        c.count as u64,
    ];
    add_entries(mix_all(3, &head), &c.entries)
}

fn of_side_call(start: u64, c: &SideCall) -> u64
    ensures { result ≡ mix_all start (c.now.minute ∷ c.now.participant ∷ c.now.trade ∷ side_code c.now.side ∷ []) }
{
    mix_all(
        start,
        &[
            c.minute as u64,
            c.participant as u64,
            c.trade as u64,
            side_code(c.side),
        ],
    )
}

fn of_new_intermediation(c: &NewIntermediation) -> u64
    ensures { result ≡ of_request (Intermediate c.entry.now) }
{
    let i = &c.intermediation;
    mix_all(
        6,
        &[
            c.minute as u64,
            i.participant as u64,
            i.id as u64,
            i.account as u64,
            i.bought as u64,
            i.sold as u64,
            u64::from(c.now),
        ],
    )
}

fn of_intermediation_call(start: u64, c: &IntermediationCall) -> u64
    ensures { result ≡ mix_all start (c.now.minute ∷ c.now.participant ∷ c.now.id ∷ []) }
{
    mix_all(start, &[c.minute as u64, c.participant as u64, c.id as u64])
}

fn digest_request(request: &Request) -> u64
    ensures { result ≡ of_request request.now }
{
    match request {
        Request::Capture(c) => of_new_trade(c),
        Request::Cancel(c) => mix_all(2, &[c.minute as u64, c.trade as u64]),
        Request::Include(c) => of_inclusion(c),
        Request::Remove(c) => of_side_call(4, c),
        Request::Confirm(c) => of_side_call(5, c),
        Request::Intermediate(c) => of_new_intermediation(c),
        Request::ConfirmIntermediation(c) => of_intermediation_call(7, c),
        Request::ExcludeIntermediation(c) => of_intermediation_call(8, c),
        Request::Close(c) => mix_all(9, &[c.minute as u64, c.day as u64]),
    }
}

// The digest of what a line reads as, or of its refusal.
#[unsafe(no_mangle)]
pub extern "C" fn probe_read(line: &[u8]) -> u64
    ensures { result ≡ digest (requestOf line.now) }
{
    match read_request(line) {
        Ok(request) => digest_request(&request),
        Err(refusal) => mix(
            mix(10, refusal.ground.number() as u64),
            refusal.place as u64,
        ),
    }
}
