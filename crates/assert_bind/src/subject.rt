ghost use Rattle.std.specs.Prelude.{◌≡◌};
ghost use Rattle.assert_bind.specs.Subject.{subject_of};

use crate::BoundBody;

/// What an assertion speaks of. No two assertions of a binding speak of the same.
#[derive(Clone, Copy, Debug, PartialEq, Eq, PartialOrd, Ord)]
pub enum Subject {
    /// How the subprogram with this entry is treated.
    Entry(u32),
    /// Whether the instruction at this address is reached.
    Reach(u32),
    /// The word of a register at an instruction.
    Word(u32, u8),
    /// Where the jump or call at this address goes.
    Targets(u32),
    /// How often the loop's head at this address is passed.
    Loop(u32),
}

/// What an assertion speaks of.
pub fn subject_of(body: &BoundBody) -> Subject
    ensures { result ≡ subject_of body.now }
{
    match body {
        BoundBody::Root(entry) => Subject::Entry(*entry),
        BoundBody::Never(pc) => Subject::Reach(*pc),
        BoundBody::At { pc, reg, .. } => Subject::Word(*pc, *reg),
        BoundBody::Jump { pc, .. } => Subject::Targets(*pc),
        BoundBody::CallTo { pc, .. } => Subject::Targets(*pc),
        BoundBody::Loop { pc, .. } => Subject::Loop(*pc),
        BoundBody::Stub { entry, .. } => Subject::Entry(*entry),
    }
}
