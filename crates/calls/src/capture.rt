// C: a trade is captured.
ghost use Rattle.std.specs.Prelude.{◌≡◌, ℕ, ◌≤◌, List, length, drop};
ghost use Rattle.register.specs.Meaning.{Listed};
ghost use Rattle.requests.specs.declared.request.Request.TheVariants.{Capture};
ghost use Rattle.book.specs.State.{state_of};
ghost use Rattle.calls.specs.Calls.{Kept, own_step, told};

use book::Book;
use fields::{Answer, Intermediation, Pair, Refusal};
use keyed::enter;
use requests::NewTrade;
use rows::Trade;
use standing::capturable;

#[tactic(auto, unfolding(crate::specs::Calls::own_step, book::specs::Verdicts::own_verdict, book::specs::Numbering::effect, book::specs::Numbering::completed, book::specs::Effects::placed))]
pub fn capture(book: &mut Book, trades: &mut [Trade], request: &NewTrade) -> Result<Answer, Refusal>
    requires { book.old.trades ≤ length trades.old }
    ensures step { (ls : List Listed) (xs : List Intermediation) (ps : List Pair) (selic control : List ℕ) → told result (state_of book.new trades.new xs ps selic control) ≡ own_step ls (state_of book.old trades.old xs ps selic control) (Capture request.now) }
    ensures kept { Kept result book.old book.new × Kept result trades.old trades.new }
    ensures beyond { drop 4096 trades.new ≡ drop 4096 trades.old }
{
    capturable(
        book.day,
        request.minute,
        trades,
        book.trades,
        &request.terms,
    )?;
    enter(trades, book.trades, Trade::capture(request.terms));
    book.trades += 1;
    Ok(Answer::Written { pairs: 0, first: 0 })
}
