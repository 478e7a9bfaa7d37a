ghost use Rattle.std.specs.Prelude.{◌≡◌, ◌^◌, ◌<◌};
ghost use Rattle.std.specs.Int.{cast_signed, w32};
ghost use Rattle.value_lattice.specs.Order.{place_of, rank_of, word_at};

/// What is added to a word, modulo 2 ^ 32, to make the order of words that of numbers with sign.
const HALF: u32 = 0x8000_0000;

/// The place of a word among all words as they are read with sign.
pub fn place(word: u32) -> u32
    ensures { result ≡ place_of word }
{
    word.wrapping_add(HALF)
}

/// The word at a place.
pub fn word_at_place(place: u32) -> u32
    ensures { result ≡ word_at place }
{
    place.wrapping_add(HALF)
}

/// The place of a number with sign.
pub fn rank(number: i32) -> u32
    ensures { result ≡ rank_of number }
{
    place(number.cast_unsigned())
}

/// The number with sign at a place.
pub fn number_at_place(place: u32) -> i32
    ensures { rank_of result ≡ place }
{
    word_at_place(place).cast_signed()
}
