//! Laws of the file, each as the contract of a function that does nothing.
ghost use Rattle.gen_image.specs.Law.{CallsLeadToTheirFunctions, FunctionsHaveTheirCode, SymbolsHaveTheirNames};

/// The code of each function stands behind the header, at the place of its address in the code.
pub fn functions_have_their_code()
    ensures { FunctionsHaveTheirCode }
{}

/// The name of each function stands in the strings where its symbol says.
pub fn symbols_have_their_names()
    ensures { SymbolsHaveTheirNames }
{}

/// Each CALL of main leads to its function.
pub fn calls_lead_to_their_functions()
    ensures { CallsLeadToTheirFunctions }
{}
