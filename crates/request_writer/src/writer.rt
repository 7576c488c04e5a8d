ghost use Rattle.std.specs.Prelude.{◌≡◌, ◌+◌, ◌≤◌, [], ◌∷◌, ◌++◌, length};
ghost use Rattle.writing.specs.Written.{Writes};
ghost use Rattle.requests.specs.declared.request.Request.TheVariants.{Capture, Include, Intermediate};
ghost use Rattle.request_writer.specs.RoundTrip.{ReadsBack};
ghost use Rattle.request_writer.specs.Canonical.{entry_pieces, inclusion_pieces, intermediation_call_pieces, pieces_of, request_line, side_call_pieces};

use arrayvec::ArrayVec;
use fields::{Entry, Refusal};
use requests::{Inclusion, IntermediationCall, NewIntermediation, NewTrade, Request, SideCall};
use writing::{Piece, write_line};

// The most pieces of a request: those of an inclusion of sixteen entries.
type Pieces = ArrayVec<Piece, 54>;

fn new_trade(c: &NewTrade) -> [Piece; 10]
    ensures { result ≡ pieces_of (Capture c.now) }
{
    let t = &c.terms;
    [
        Piece::from(c.minute),
        Piece::from(t.number),
        Piece::Letter(u8::from(t.kind)),
        Piece::from(t.asset),
        Piece::from(t.quantity),
        Piece::from(t.settlement),
        Piece::from(t.buyer.participant),
        Piece::from(t.buyer.offeror),
        Piece::from(t.seller.participant),
        Piece::from(t.seller.offeror),
    ]
}

fn push_entry(pieces: &mut Pieces, entry: &Entry)
    requires { length pieces.old.items + 3 ≤ 54 }
    ensures items { pieces.new.items ≡ pieces.old.items ++ entry_pieces (entry.now ∷ []) }
    ensures len { length pieces.new.items ≡ length pieces.old.items + 3 }
{
    pieces.push(Piece::from(entry.account));
    pieces.push(Piece::from(entry.quantity));
    pieces.push(Piece::from(entry.client));
}

// Fills in the pieces in their place: to return so many is to copy them.
fn inclusion(pieces: &mut Pieces, c: &Inclusion)
    requires { pieces.old.items ≡ [] }
    ensures { pieces.new.items ≡ inclusion_pieces c.entry.now }
{
    pieces.push(Piece::from(c.minute));
    pieces.push(Piece::from(c.participant));
    pieces.push(Piece::from(c.trade));
    pieces.push(Piece::Letter(u8::from(c.side)));
    pieces.push(Piece::Number(u64::from(c.now)));
    pieces.push(Piece::Number(c.count as u64));
    for entry in &c.entries[..c.count.min(c.entries.len())] {
        push_entry(pieces, entry);
    }
}

fn side_call(c: &SideCall) -> [Piece; 4]
    ensures { result ≡ side_call_pieces c.now }
{
    [
        Piece::from(c.minute),
        Piece::from(c.participant),
        Piece::from(c.trade),
        Piece::Letter(u8::from(c.side)),
    ]
}

fn new_intermediation(c: &NewIntermediation) -> [Piece; 7]
    ensures { result ≡ pieces_of (Intermediate c.entry.now) }
{
    let i = &c.intermediation;
    [
        Piece::from(c.minute),
        Piece::from(i.participant),
        Piece::from(i.id),
        Piece::from(i.account),
        Piece::from(i.bought),
        Piece::from(i.sold),
        Piece::Number(u64::from(c.now)),
    ]
}

fn intermediation_call(c: &IntermediationCall) -> [Piece; 3]
    ensures { result ≡ intermediation_call_pieces c.now }
{
    [
        Piece::from(c.minute),
        Piece::from(c.participant),
        Piece::from(c.id),
    ]
}

// By itself, since a function blanks the room of all its values as it begins, and only an inclusion has many pieces.
#[inline(never)]
fn write_inclusion(out: &mut [u8], c: &Inclusion) -> Result<usize, Refusal>
    ensures { Writes (request_line (Include c.entry.now)) 1135 out.old out.new result }
{
    let mut pieces = Pieces::new();
    inclusion(&mut pieces, c);
    write_line(out, b'I', &pieces)
}

// An inclusion whose fields pass reads back: its table has room for its entries.
fn inclusion_law(c: &Inclusion)
    ensures { ReadsBack (Include c.entry.now) }
{
    let _all = &c.entries[0..16];
}

// A request whose fields pass reads back from its canonical line.
fn back_law(request: &Request)
    ensures { ReadsBack request.now }
{
    if let Request::Include(c) = request {
        inclusion_law(c);
    }
}

// Writes the canonical line of a request, for which 1,135 bytes are enough.
// Where its fields pass, the line reads back as the request.
pub fn write_request(out: &mut [u8], request: &Request) -> Result<usize, Refusal>
    ensures line { Writes (request_line request.now) 1135 out.old out.new result }
    ensures back { ReadsBack request.now }
{
    back_law(request);
    match request {
        Request::Capture(c) => write_line(out, b'C', &new_trade(c)),
        Request::Cancel(c) => {
            write_line(out, b'X', &[Piece::from(c.minute), Piece::from(c.trade)])
        }
        Request::Include(c) => write_inclusion(out, c),
        Request::Remove(c) => write_line(out, b'D', &side_call(c)),
        Request::Confirm(c) => write_line(out, b'F', &side_call(c)),
        Request::Intermediate(c) => write_line(out, b'J', &new_intermediation(c)),
        Request::ConfirmIntermediation(c) => write_line(out, b'G', &intermediation_call(c)),
        Request::ExcludeIntermediation(c) => write_line(out, b'E', &intermediation_call(c)),
        Request::Close(c) => write_line(out, b'Z', &[Piece::from(c.minute), Piece::from(c.day)]),
    }
}
