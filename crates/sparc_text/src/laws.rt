//! Facts about lines and listings: each is the contract of a function that does nothing.
ghost use Rattle.sparc_text.specs.Laws.{CodeHasWords, LinesTellWords, ListingIsOne};

/// A line tells its address and its word: lines of others differ.
pub fn lines_tell_words()
    ensures { LinesTellWords }
{}

/// Each code address of an image has a word, so that no line of a listing is empty.
pub fn code_has_words()
    ensures { CodeHasWords }
{}

/// An image has at most one listing.
pub fn listing_is_one()
    ensures { ListingIsOne }
{}
