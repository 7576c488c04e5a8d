// Tables of rows in rising key order, over slices that a caller lends and of which the first `count` rows are in use: the count stands beside the slice.
#![tactic(auto)]

pub mod plain;
pub mod row;
pub mod scan;
pub mod shift;

pub use row::{Checked, Keyed};
pub use scan::{all_good, find, place, rises, sound_part};
pub use shift::{enter, remove};
