ghost use Rattle.std.specs.Prelude.{◌≡◌};
ghost use Rattle.word_ops.specs.Word.{complement_of};

/// Every bit turned over.
pub fn complement(x: u32) -> u32
    ensures { result ≡ complement_of x }
{
    x ^ u32::MAX
}
