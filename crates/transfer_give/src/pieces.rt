//! Pieces, put behind others.
ghost use Rattle.std.specs.Prelude.{◌≡◌, [], ◌∷◌, ◌++◌, OnOk};
ghost use Rattle.transfer_rules.specs.Give.{effects, gap, goes};

use abs_state::{AbsState, GapKind, Key, Place};
use bt_base::Want;
use call_effects::{Mask, Summary};
use transfer_rules::Fact;

/// What isn't followed at a place.
pub fn push_gap(pieces: &mut Vec<(Key, Fact)>, p: Place, why: GapKind) -> Result<(), Want>
    ensures { OnOk result (pieces.new.items ≡ pieces.old.items ++ gap p why ∷ []) }
{
    let key = Key::Gap {
        sub: p.sub,
        pc: p.pc,
        why,
    };
    pieces.push((key, Fact::Mark))?;
    Ok(())
}

/// What a subprogram may do.
pub fn push_effects(
    pieces: &mut Vec<(Key, Fact)>,
    sub: u32,
    returns: bool,
    skips: bool,
    written: Mask,
) -> Result<(), Want>
    ensures { OnOk result (pieces.new.items ≡ pieces.old.items ++ effects sub returns skips written ∷ []) }
{
    let summary = Summary {
        returns,
        skips,
        written,
    };
    pieces.push((Key::Summary { sub }, Fact::Sum(summary)))?;
    Ok(())
}

/// The step from one place to another, and the state there.
pub fn push_goes(
    pieces: &mut Vec<(Key, Fact)>,
    from: Place,
    to: Place,
    s: AbsState,
) -> Result<(), Want>
    ensures { OnOk result (pieces.new.items ≡ pieces.old.items ++ goes from to s) }
{
    pieces.push((Key::Node(to), Fact::State(s)))?;
    pieces.push((Key::Edge { from, to }, Fact::Mark))?;
    Ok(())
}
