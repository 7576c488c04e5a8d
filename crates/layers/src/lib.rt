// Layers over any register: accounts on hold, and kinds that are halted.
#![tactic(auto)]

pub mod below;
pub mod halt;
pub mod hold;
pub mod layer;
pub mod stacks;

pub use below::{account_below, tied_below};
pub use halt::{Halt, Halted};
pub use hold::{Held, Hold};
pub use layer::{Layer, View};
pub use stacks::usable;
