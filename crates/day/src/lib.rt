// A whole day, from the bytes of its texts to the bytes of its answers.
#![tactic(auto)]

pub mod whole;

pub use whole::{COUNTED, Files, run};
