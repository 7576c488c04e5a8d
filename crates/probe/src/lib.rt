// The reader behind a C call, for a host that compares and times it: a number that depends on all that was read.
#![tactic(auto)]

pub mod digest;
