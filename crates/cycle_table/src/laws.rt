//! Facts about tables of cycles: each is the contract of a function that does nothing.
ghost use Rattle.cycle_table.specs.Law.{FaultsAreFirst, TablesAreWhole};

/// What is wrong with the lines of a table is what is wrong with the first bad one.
pub fn faults_are_first()
    ensures { FaultsAreFirst }
{}

/// Lines that are a table give each class of its version its cost, which isn't 0, on exactly one line, and no other
/// class a cost; so its costs tell its version.
pub fn tables_are_whole()
    ensures { TablesAreWhole }
{}
