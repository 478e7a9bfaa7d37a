//! Where everything begins.
ghost use Rattle.std.specs.Prelude.{◌≡◌, ◌++◌, IfOk, OnOk, map};
ghost use Rattle.abs_state.specs.State.{entry_state};
ghost use Rattle.call_effects.specs.Summary.{effects_of_stub};
ghost use Rattle.transfer_rules.specs.Give.{entry_of};

use crate::places::entry_of;
use abs_state::{AbsState, Key};
use bt_base::Want;
use call_effects::stub_summary;
use std::alloc::Global;
use transfer_rules::Fact;

/// The entries of the roots.
fn push_roots(alloc: Global, pieces: &mut Vec<(Key, Fact)>, roots: &[u32]) -> Result<(), Want>
    ensures { OnOk result (pieces.new.items ≡ pieces.old.items ++ map (λ root. (Key.Node (entry_of root), Fact.State entry_state)) roots.now) }
{
    for root in roots {
        pieces.push((
            Key::Node(entry_of(*root)),
            Fact::State(AbsState::entry(alloc)?),
        ))?;
    }
    Ok(())
}

/// What the stubs may do.
fn push_stubs(pieces: &mut Vec<(Key, Fact)>, stubs: &[u32]) -> Result<(), Want>
    ensures { OnOk result (pieces.new.items ≡ pieces.old.items ++ map (λ stub. (Key.Summary stub, Fact.Sum effects_of_stub)) stubs.now) }
{
    for stub in stubs {
        pieces.push((Key::Summary { sub: *stub }, Fact::Sum(stub_summary())))?;
    }
    Ok(())
}

/// The start pieces, of roots and stubs: the entry of each root, and what each stub may do.
pub fn starts(alloc: Global, roots: &[u32], stubs: &[u32]) -> Result<Vec<(Key, Fact)>, Want>
    ensures { IfOk result (λ pieces. pieces.items
        ≡ map (λ root. (Key.Node (entry_of root), Fact.State entry_state)) roots.now
        ++ map (λ stub. (Key.Summary stub, Fact.Sum effects_of_stub)) stubs.now) }
{
    let mut pieces = Vec::new(alloc);
    push_roots(alloc, &mut pieces, roots)?;
    push_stubs(&mut pieces, stubs)?;
    Ok(pieces)
}
