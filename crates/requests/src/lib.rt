// The nine requests, and the tests of their fields.
#![tactic(auto)]

pub mod check;
pub mod request;

pub use check::{check_fields, sold_range};
pub use request::{
    Cancellation, Closing, Inclusion, IntermediationCall, NewIntermediation, NewTrade, Request,
    SideCall,
};
