// The calls of the book: each request judged, and then carried out.
#![tactic(auto)]

pub mod capture;
