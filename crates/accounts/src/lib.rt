// A table of account rows as a register.
#![tactic(auto)]

pub mod row;
pub mod table;

pub use row::AccountRow;
pub use table::AccountTable;
