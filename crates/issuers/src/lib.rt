// The issuers of the numbers that pairs get.
#![tactic(auto)]

pub mod band;
pub mod by_kind;
pub mod roll;
pub mod source;

pub use band::Band;
pub use by_kind::{next_for, remaining_for};
pub use roll::Roll;
pub use source::Issuer;
