ghost use Rattle.std.specs.Prelude.{◌<◌, ◌^◌, length};
ghost use Rattle.value_lattice.specs.Ends.{AreEndsOf};

use crate::order::place;

/// The places of the least and the greatest of words, as they are read with sign.
pub(crate) fn ends_of(words: &[u32]) -> (u32, u32)
    requires { 0 < length words.now }
    ensures { AreEndsOf words.now result.0 result.1 }
{
    let mut low = place(words[0]);
    let mut high = low;
    for word in words {
        let here = place(*word);
        low = low.min(here);
        high = high.max(here);
    }
    (low, high)
}
