/// What a step may freely find: in memory outside read-only sections, in the Y register, in the condition
/// codes that an operation leaves open, and in the conditions of the floating-point unit.
#[derive(Clone, Copy, Debug, PartialEq, Eq)]
pub struct Free {
    /// The word that is read, cut to the low bytes of a shorter form.
    pub first: u32,
    /// The second word of a double word.
    pub second: u32,
    /// The condition codes that are left open, below 16: N, Z, V and C, N the highest.
    pub flags: u8,
    /// Whether a branch of the floating-point unit is taken.
    pub taken: bool,
}
