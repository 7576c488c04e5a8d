// Following a chain of trades, and pairing the entries of its two ends.
#![tactic(auto)]

pub mod follow;
pub mod pairing;

pub use pairing::Match;
