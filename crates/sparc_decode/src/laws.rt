//! Facts about the instruction set: each is the contract of a function that does nothing.
ghost use Rattle.std.specs.Prelude.{ℕ, ◌<◌, ◌^◌, List};
ghost use Rattle.sparc_decode.specs.Instr.{EachWordStandsForOne, FieldsAreInRange, NoSelectorStandsTwice};
ghost use Rattle.sparc_decode.specs.Register.{HasExactly, mask_of};

/// Each word stands for exactly one instruction.
pub fn each_word_stands_for_one()
    ensures { EachWordStandsForOne }
{}

/// The fields of a word's instruction are in range: registers are below 32, conditions below 16, and numbers fit their
/// bits.
pub fn fields_are_in_range()
    ensures { FieldsAreInRange }
{}

/// No selector stands in two rows of the table of an op.
pub fn no_selector_stands_twice()
    ensures { NoSelectorStandsTwice }
{}

/// The set of a list of registers has exactly these, without r0, and is a word.
pub fn sets_name_registers()
    ensures exact { (registers : List ℕ) → HasExactly (mask_of registers) registers }
    ensures word { (registers : List ℕ) → mask_of registers < 2 ^ 32 }
{}
