// Lines written into a lent buffer: a letter, then fields parted by commas.
#![tactic(auto)]

pub mod answer;
pub mod line;
pub mod pair;
pub mod piece;

pub use answer::write_answer;
pub use line::write_line;
pub use pair::write_pair;
pub use piece::Piece;
