// The trades seen as changes will leave them, and whether those complete a chain.
ghost use Rattle.std.specs.Prelude.{◌≡◌, ◌<◌, length};
ghost use Rattle.keyed.specs.Lists.{all};
ghost use Rattle.rows.specs.Trades.{both_confirmed};
ghost use Rattle.chains.specs.Places.{places_of, row_at, rows_at};
ghost use Rattle.completing.specs.Changes.{left_by};
ghost use Rattle.completing.specs.Completed.{Among, AmongIf, complete_in, rows_in};

use crate::change::Change;
use rows::Trade;

// The trades as one change and then another will leave them. Two borrowed changes: not compared.
#[derive(Clone, Copy)]
pub struct Preview<'a> {
    pub trades: &'a [Trade],
    pub one: Option<&'a Change>,
    pub two: Option<&'a Change>,
}

impl<'a> Preview<'a> {
    // The row at a place.
    pub fn row(&self, place: usize) -> &'a Trade
        requires { place < length self.now.trades.now }
        ensures { result.now ≡ row_at (left_by self.now) place }
    {
        self.two
            .filter(|made| made.at == place)
            .or(self.one.filter(|made| made.at == place))
            .map_or(&self.trades[place], |made| &made.row)
    }

    // Whether every side of the chain is confirmed.
    fn is_complete(&self, chain: (usize, usize, usize, usize)) -> bool
        requires { Among (length self.now.trades.now) chain }
        ensures { result ≡ all both_confirmed (rows_at (left_by self.now) (places_of chain)) }
    {
        let (first, middle, last, _) = chain;
        self.row(first).is_confirmed()
            && self.row(middle).is_confirmed()
            && self.row(last).is_confirmed()
    }

    // The chain, if every side of it is confirmed.
    pub fn completed(
        &self,
        chain: Option<(usize, usize, usize, usize)>,
    ) -> Option<(usize, usize, usize, usize)>
        requires { AmongIf (length self.now.trades.now) chain }
        ensures value { rows_in (left_by self.now) result ≡ complete_in (left_by self.now) chain }
        ensures among { AmongIf (length self.now.trades.now) result }
    {
        let places = chain?;
        self.is_complete(places).then_some(places)
    }
}
