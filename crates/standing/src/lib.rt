// Tests that several requests share: of the tables, of a trade and its chain, and of a side.
#![tactic(auto)]

pub mod closing;
pub mod sides;
pub mod tables;
pub mod trades;

pub use closing::closing_passes;
pub use sides::{side_filled, side_free, side_stands};
pub use tables::tables_stand;
pub use trades::{capturable, trade_stands};
