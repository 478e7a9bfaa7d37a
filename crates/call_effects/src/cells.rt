ghost use Rattle.std.specs.Prelude.{◌≡◌, ◌<◌};
ghost use Rattle.call_effects.specs.Cell.{cell_of};

/// The cell of register `r` at a depth: 0 is the window of the subprogram's entry, 1 the window behind its SAVE.
///
/// Cells 0 to 7 are the globals, 8 to 31 the other registers at depth 0, and 32 to 47 are r8 to r23 at depth 1,
/// whose r24 to r31 are r8 to r15 at depth 0 (SPARC Architecture Manual Version 7, "Registers").
pub fn cell_of(depth: u8, r: u8) -> u8
    requires depth { depth < 2 }
    requires register { r < 32 }
    ensures cell { result ≡ cell_of depth r }
    ensures within { result < 48 }
{
    if depth == 0 || r < 8 {
        r
    } else if r < 24 {
        r + 24
    } else {
        r - 16
    }
}
