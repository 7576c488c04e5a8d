// The model of the book (see specs/), and what its code shares: the counts that a book keeps, and a test that refuses.
#![tactic(auto)]

pub mod cases;
pub mod counts;
pub mod test;

pub use counts::Book;
