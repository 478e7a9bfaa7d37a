ghost use Rattle.std.specs.Prelude.{◌≡◌};
ghost use Rattle.word_ops.specs.Word.{shifted_left, shifted_right, shifted_right_signed};

/// Shifted left by the low five bits of a count.
pub fn shift_left(x: u32, count: u32) -> u32
    ensures { result ≡ shifted_left x count }
{
    x.wrapping_mul(1 << (count % 32))
}

/// Shifted right by the low five bits of a count; zeros come in.
pub fn shift_right(x: u32, count: u32) -> u32
    ensures { result ≡ shifted_right x count }
{
    x >> (count % 32)
}

/// Shifted right by the low five bits of a count; the sign comes in.
pub fn shift_right_signed(x: u32, count: u32) -> u32
    ensures { result ≡ shifted_right_signed x count }
{
    let n = count % 32;
    let key = x.wrapping_add(0x8000_0000);
    (key >> n).wrapping_sub(0x8000_0000 >> n)
}
