// Requests written as lines, in their canonical form.
#![tactic(auto)]

pub mod writer;

pub use writer::write_request;
