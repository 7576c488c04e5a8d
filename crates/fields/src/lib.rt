// The fields of requests and tables, the records that several crates share, and the words of an answer.
#![tactic(auto)]

pub mod account;
pub mod answer;
pub mod ground;
pub mod range;
pub mod trade;

pub use account::{Account, AccountType, Markets, Party, Status};
pub use answer::{Answer, Refusal};
pub use ground::Ground;
pub use range::Range;
pub use trade::{Entry, Intermediation, Kind, Pair, Side, Terms};
