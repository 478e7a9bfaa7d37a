//! Facts about what states say of machines: each is the contract of a function that does nothing.
ghost use Rattle.state_covers.specs.Law.{ConditionsAreKnown, EntriesCover, EntriesSay, GreaterStatesCover, GreaterStatesSay, MachinesHaveContents, WritesSay};

/// The cells of a machine's frame hold words, and cell 0 holds 0.
pub fn machines_have_contents()
    ensures { MachinesHaveContents }
{}

/// A state that is at least one that is right about cells and condition codes is right about them.
pub fn greater_states_say()
    ensures { GreaterStatesSay }
{}

/// A state that is at least one that covers a machine covers it.
pub fn greater_states_cover()
    ensures { GreaterStatesCover }
{}

/// A state stays right where what is written to it is written to the cells.
pub fn writes_say()
    ensures { WritesSay }
{}

/// The state of a subprogram's entry is right where r15 holds the return address.
pub fn entries_say()
    ensures { EntriesSay }
{}

/// The state of a subprogram's entry covers the first machine of its frame.
pub fn entries_cover()
    ensures { EntriesCover }
{}

/// What a condition over the condition codes says of the cells that a state names.
pub fn conditions_are_known()
    ensures { ConditionsAreKnown }
{}
