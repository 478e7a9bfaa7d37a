//! Laws of what stands at the addresses of an image, each as the contract of a function that does nothing.
ghost use Rattle.bt_image.specs.Law.{BytesDoNotMix, CodeIsInMemory, CodeIsReadOnly, WordsAreReadOnly};

/// The bytes that stand from an address on are those that stand at its addresses one by one: no two sections of an
/// accepted file share an address.
pub fn bytes_do_not_mix()
    ensures { BytesDoNotMix }
{}

/// A word that can be read stands in four read-only bytes, and is their big-endian number.
pub fn words_are_read_only()
    ensures { WordsAreReadOnly }
{}

/// Code is read-only: each aligned word of a code section can be read, whether the section is writable or not.
pub fn code_is_read_only()
    ensures { CodeIsReadOnly }
{}

/// Code is in memory: the four bytes of a word of code end at 2^32 at most.
pub fn code_is_in_memory()
    ensures { CodeIsInMemory }
{}
