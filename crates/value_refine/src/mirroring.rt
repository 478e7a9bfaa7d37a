ghost use Rattle.std.specs.Prelude.{◌≡◌};
ghost use Rattle.value_refine.specs.Refinement.{mirror_of};

/// A condition with its sides exchanged: over the flags of `y - x` it is what the condition is over those of
/// `x - y`. So l and g, le and ge, leu and cc, and cs and gu are exchanged, and e, ne, always and never kept.
///
/// For neg, pos, vs and vc it is always (8): they say nothing of the other side, which is to be left alone.
pub fn mirror(cond: u8) -> u8
    ensures { result ≡ mirror_of cond }
{
    match cond {
        0 => 0,
        1 => 1,
        2 => 11,
        3 => 10,
        4 => 13,
        5 => 12,
        9 => 9,
        10 => 3,
        11 => 2,
        12 => 5,
        13 => 4,
        _ => 8,
    }
}
