/// The bound that a counting cell gives to a loop: how often its head is passed from one entry of the loop to the next.
#[derive(Clone, Copy, Debug, PartialEq, Eq)]
pub struct HeadBound {
    /// The cell that counts, below 48.
    pub cell: u8,
    /// What a turn of the loop adds to it at the least, with the sign of all its turns.
    pub step: i64,
    /// The least content at the head, read with sign.
    pub lo: i32,
    /// The greatest content at the head, read with sign.
    pub hi: i32,
    /// How often the head is passed at most, the entering pass counted.
    pub passes: u64,
}
