// The rows of the book's tables: what they are, what they tell, and how one of them is changed.
#![tactic(auto)]

pub mod account;
pub mod hours;
pub mod in_use;
pub mod legs;
pub mod machine;
pub mod row;
pub mod tables;
pub mod trade;

pub use account::{
    are_same_kind, is_active, is_both_sides_type, is_intermediation_type, is_selic, is_suited,
};
pub use hours::is_in_time;
pub use legs::{any_leg_of, leg_of, other_side};
pub use machine::Event;
pub use row::{Allocation, AllocationState, KeptEntry, Trade, TradeState};
pub use tables::{has_key, has_room, is_whole, stands};
pub use trade::party_of;
