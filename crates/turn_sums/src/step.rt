/// By how much each turn of a loop changes a cell: at least so much, always the same way, and some turn no more.
#[derive(Clone, Copy, Debug, PartialEq, Eq)]
pub enum TurnStep {
    /// Each turn adds at least so much, which is at least 1.
    Rises(u128),
    /// Each turn takes at least so much, which is at least 1.
    Falls(u128),
}
