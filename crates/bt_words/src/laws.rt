//! Facts about command lines: each is the contract of a function that does nothing.
ghost use Rattle.bt_words.specs.Law.{CommandsComeFirst, FaultlessWordsAsk, FunctionsAreAsked, OneNameAsks, ThreeNamesAsk, WorkersAreAsked};

/// Words without a fault ask for something, a bound or a graph with from 1 to 64 workers.
pub fn faultless_words_ask()
    ensures { FaultlessWordsAsk }
{}

/// `bound` with three names asks for a bound by one worker, and `graph` for a graph. A name begins with no hyphen, or is a single one.
pub fn three_names_ask()
    ensures { ThreeNamesAsk }
{}

/// `bound` or `graph` with three names and `--workers` with a number from 1 to 64 asks for a bound or a graph by so many
/// workers.
pub fn workers_are_asked()
    ensures { WorkersAreAsked }
{}

/// `decode` with one name asks for a listing.
pub fn one_name_asks()
    ensures { OneNameAsks }
{}

/// `gen` with a number from 1 to 4,000 asks for an executable of so many functions, by one worker, or by as many as
/// `--workers` says with a number from 1 to 64.
pub fn functions_are_asked()
    ensures { FunctionsAreAsked }
{}

/// The first word of words without a fault is `bound`, `graph`, `decode` or `gen`: no option stands before it.
pub fn commands_come_first()
    ensures { CommandsComeFirst }
{}
