// Request lines: from bytes to requests.
#![tactic(auto)]

pub mod opening;
pub mod reader;

pub use opening::{Opening, read_opening};
pub use reader::read_request;
