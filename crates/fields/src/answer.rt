// What a request is answered with.
use crate::ground::Ground;

// An accepted request: how many pairs it wrote and from which pair row on, counted from 1, or 0 and 0, which are numbers of the written line and so no `Option`;
// or that a trade was only marked as cancelled in the trading system.
#[derive(Clone, Copy, Debug, PartialEq, Eq)]
pub enum Answer {
    Written { pairs: usize, first: usize },
    Marked,
}

// Why a request was refused, and where: the field, entry, leg, row or line that is at fault, or 0.
#[derive(Clone, Copy, Debug, PartialEq, Eq)]
pub struct Refusal {
    pub ground: Ground,
    pub place: usize,
}
