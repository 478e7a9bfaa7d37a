ghost use Rattle.std.specs.Prelude.{◌≡◌, ◌<◌};
ghost use Rattle.word_ops.specs.Condition.{holds_of, first_eight};

use crate::Flags;

/// Whether one of the first eight conditions holds.
fn first_eight(condition: u8, f: &Flags) -> bool
    requires { condition < 8 }
    ensures { result ≡ first_eight condition f.now }
{
    match condition {
        0 => false,
        1 => f.z,
        2 => f.z || f.n != f.v,
        3 => f.n != f.v,
        4 => f.c || f.z,
        5 => f.c,
        6 => f.n,
        _ => f.v,
    }
}

/// Whether a condition of a branch holds: n, e, le, l, leu, cs, neg and vs, and their negations a, ne, g, ge,
/// gu, cc, pos and vc.
pub fn holds(condition: u8, f: &Flags) -> bool
    requires { condition < 16 }
    ensures { result ≡ holds_of condition f.now }
{
    if condition < 8 {
        first_eight(condition, f)
    } else {
        !first_eight(condition - 8, f)
    }
}
