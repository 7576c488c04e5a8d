// What is proved of every run of the book.
#![tactic(auto)]

pub mod laws;
