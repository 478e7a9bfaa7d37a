//! The classes of instructions in a table of cycles: their order, their places and their names.
ghost use Rattle.std.specs.Prelude.{◌≡◌, ◌≤◌};
ghost use Rattle.cycle_table.specs.Class.{classes_of, place_of, name_of, class_named, cost_at, first_free};

use sparc_decode::CostClass;

/// The versions of a table.
#[derive(Clone, Copy, Debug, PartialEq, Eq)]
pub enum Version {
    /// The classes of SPARC Version 7.
    One,
    /// And uses behind a load, and the multiplications and divisions of SPARC Version 8.
    Two,
}

/// How many classes have a cost.
pub const COUNT: usize = 30;

/// The classes in the order of a table.
const CLASSES: [CostClass; COUNT] = [
    CostClass::Alu,
    CostClass::Shift,
    CostClass::Sethi,
    CostClass::Tagged,
    CostClass::Mulscc,
    CostClass::Save,
    CostClass::Restore,
    CostClass::Branch,
    CostClass::Floatbranch,
    CostClass::Call,
    CostClass::Jump,
    CostClass::Load,
    CostClass::Loaddouble,
    CostClass::Store,
    CostClass::Storedouble,
    CostClass::Atomic,
    CostClass::Ready,
    CostClass::Writey,
    CostClass::Flush,
    CostClass::Floatop,
    CostClass::Floatcmp,
    CostClass::Floatload,
    CostClass::Floatloaddouble,
    CostClass::Floatstore,
    CostClass::Floatstoredouble,
    CostClass::Trap,
    CostClass::Annulled,
    CostClass::Loaduse,
    CostClass::Multiply,
    CostClass::Divide,
];

/// The classes of a version, in the order of a table.
fn classes_of(version: Version) -> &'static [CostClass]
    ensures { result.now ≡ classes_of version }
{
    match version {
        Version::One => &CLASSES[..27],
        Version::Two => &CLASSES,
    }
}

/// The place of a class in that order; a class that has no cost comes after them.
pub fn place_of(class: CostClass) -> usize
    ensures { result ≡ place_of class }
{
    class as usize
}

/// The name of a class in a table; the class that isn't modelled stands in none, and is `unmodelled`.
pub fn class_name(class: CostClass) -> &'static str
    ensures { result.now ≡ name_of class }
{
    match class {
        CostClass::Alu => "alu",
        CostClass::Shift => "shift",
        CostClass::Sethi => "sethi",
        CostClass::Tagged => "tagged",
        CostClass::Mulscc => "mulscc",
        CostClass::Save => "save",
        CostClass::Restore => "restore",
        CostClass::Branch => "branch",
        CostClass::Floatbranch => "floatbranch",
        CostClass::Call => "call",
        CostClass::Jump => "jump",
        CostClass::Load => "load",
        CostClass::Loaddouble => "loaddouble",
        CostClass::Store => "store",
        CostClass::Storedouble => "storedouble",
        CostClass::Atomic => "atomic",
        CostClass::Ready => "ready",
        CostClass::Writey => "writey",
        CostClass::Flush => "flush",
        CostClass::Floatop => "floatop",
        CostClass::Floatcmp => "floatcmp",
        CostClass::Floatload => "floatload",
        CostClass::Floatloaddouble => "floatloaddouble",
        CostClass::Floatstore => "floatstore",
        CostClass::Floatstoredouble => "floatstoredouble",
        CostClass::Trap => "trap",
        CostClass::Annulled => "annulled",
        CostClass::Loaduse => "loaduse",
        CostClass::Multiply => "multiply",
        CostClass::Divide => "divide",
        CostClass::Unmodelled => "unmodelled",
    }
}

/// The class of a version that a word names.
#[tactic(auto, unfolding(crate::specs::Class::class_named))]
pub fn class_named(version: Version, word: &[u8]) -> Option<CostClass>
    ensures { result ≡ class_named version word.now }
{
    classes_of(version)
        .iter()
        .copied()
        .find(|class| class_name(*class).as_bytes() == word)
}

/// The cost of a class among the costs of all, and 0 where it has none.
pub fn cost_at(costs: &[u32; COUNT], class: CostClass) -> u32
    ensures { result ≡ cost_at costs.now class }
{
    costs.get(place_of(class)).copied().unwrap_or(0)
}

/// The first class of a version whose cost is 0.
#[tactic(auto, unfolding(crate::specs::Class::first_free))]
pub fn first_free(version: Version, costs: &[u32; COUNT]) -> Option<CostClass>
    ensures { result ≡ first_free version costs.now }
{
    classes_of(version)
        .iter()
        .copied()
        .find(|class| cost_at(costs, *class) == 0)
}
