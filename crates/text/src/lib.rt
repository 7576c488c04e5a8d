// Reading fields of bytes that commas part. A reader stands on the comma before a field, or at the end.
#![tactic(auto)]

pub mod cuts;
pub mod groups;
pub mod lines;
pub mod next;
pub mod number;
pub mod words;

pub use cuts::{cut, next_line, split_letter};
pub use groups::{Group, read_into};
pub use lines::Lines;
pub use next::{read_end, read_first, read_number, read_only, read_u32};
pub use words::{FromField, read_as};
