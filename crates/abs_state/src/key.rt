/// Where control goes behind the instruction of a program point.
#[derive(Clone, Copy, Debug, PartialEq, Eq, PartialOrd, Ord)]
pub enum Next {
    /// To an address.
    At(u32),
    /// Into the subprogram at an address: the instruction is the delay instruction of a call.
    Into(u32),
    /// Back to the caller: the instruction is the delay instruction of a return.
    Back,
}

/// A program point.
#[derive(Clone, Copy, Debug, PartialEq, Eq, PartialOrd, Ord)]
pub struct Place {
    /// The entry address of the subprogram in whose frame it is.
    pub sub: u32,
    /// The address of the instruction that is executed next.
    pub pc: u32,
    /// Where control goes behind that instruction.
    pub next: Next,
    /// The windows between the entry's and the current one: 0 or 1.
    pub depth: u8,
}

/// Why the analysis doesn't see what follows an instruction.
#[derive(Clone, Copy, Debug, PartialEq, Eq, PartialOrd, Ord)]
pub enum GapKind {
    /// The targets of a jump aren't all known.
    Jump,
    /// The targets of a call aren't all known.
    Call,
    /// The instruction isn't modelled there.
    Instr,
}

/// What a fact is about. Keys are ordered as they are declared.
#[derive(Clone, Copy, Debug, PartialEq, Eq, PartialOrd, Ord)]
pub enum Key {
    /// A program point that may be reached.
    Node(Place),
    /// A step that may be taken from one program point of a subprogram to another.
    Edge {
        /// Where it begins.
        from: Place,
        /// Where it leads.
        to: Place,
    },
    /// A call that may be made.
    Call {
        /// The program point of its delay instruction.
        from: Place,
        /// The entry address of the subprogram that is called.
        callee: u32,
    },
    /// What a subprogram may do to its caller.
    Summary {
        /// Its entry address.
        sub: u32,
    },
    /// An instruction behind which not all is known.
    Gap {
        /// The entry address of the subprogram in whose frame it is.
        sub: u32,
        /// Its address.
        pc: u32,
        /// What isn't known.
        why: GapKind,
    },
}
