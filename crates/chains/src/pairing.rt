// What one entry of the selling end gives to one of the buying end: a pair before it has a number.
#[derive(Clone, Copy, Debug, PartialEq, Eq)]
pub struct Match {
    pub seller: u32,
    pub buyer: u32,
    pub quantity: u32,
}
