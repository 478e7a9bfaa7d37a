//! Facts about assertion files: each is the contract of a function that does nothing.
ghost use Rattle.assert_lang.specs.Column.{ColumnsAreRight};
ghost use Rattle.assert_lang.specs.Grammar.{StatementsAreWritten};
ghost use Rattle.assert_lang.specs.Misfit.{MisfitsAreFirst};
ghost use Rattle.assert_lang.specs.Parting.{LinesAreParted};

/// The words of a line stand in it at their columns, counted in bytes from 1.
pub fn columns_are_right()
    ensures { ColumnsAreRight }
{}

/// A line is blanks and its words, in their order, and nothing else: a word is a comma, or all the bytes without
/// blanks and commas that stand together.
pub fn lines_are_parted()
    ensures { LinesAreParted }
{}

/// A line is read as a statement exactly where its words write that one by the grammar.
pub fn statements_are_written()
    ensures { StatementsAreWritten }
{}

/// A line that is no statement is refused at its first word that doesn't fit: some statement begins with the words
/// before it, and none with it too. Where all its words begin a statement, it is refused past its end.
pub fn misfits_are_first()
    ensures { MisfitsAreFirst }
{}
