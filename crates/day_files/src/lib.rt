// The two files of a day that hold a number on each line.
#![tactic(auto)]

pub mod holds;
pub mod roll;
pub mod stop;

pub use holds::read_holds;
pub use roll::read_roll;
pub use stop::Stop;
