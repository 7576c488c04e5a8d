// Whether a request completes a chain, judged before anything is written; and the chain numbered.
#![tactic(auto)]

pub mod change;
pub mod complete;
pub mod edit;

pub use change::{Change, put};
pub use complete::Preview;
pub use edit::{cancel_at, change_at, empty_at, mark_at, number_at, put_row};
