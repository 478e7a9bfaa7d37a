//! The first line of a loop whose address isn't among some.
ghost use Rattle.std.specs.Prelude.{◌≡◌};
ghost use Rattle.std.specs.List.Sorted.{IsStrictlyIncreasing};
ghost use Rattle.loop_lines.specs.Lines.{IsFirstMissingOrNone, least_with};

use assert_bind::LoopLine;
use bt_base::has;

/// The least of a line and one that there may be.
fn lesser(least: Option<u32>, line: u32) -> u32
    ensures { result ≡ least_with least line }
{
    match least {
        Some(other) => if other < line { other } else { line },
        None => line,
    }
}

/// The least line of a loop whose address isn't among some that rise, if there is one.
pub(crate) fn first_missing(lines: &[LoopLine], addresses: &[u32]) -> Option<u32>
    requires { IsStrictlyIncreasing addresses.now }
    ensures { IsFirstMissingOrNone lines.now addresses.now result }
{
    let mut least = None;
    for one in lines {
        if !has(addresses, one.pc) {
            least = Some(lesser(least, one.line));
        }
    }
    least
}
