ghost use Rattle.std.specs.Prelude.{◌≡◌, IfOk, map};
ghost use Rattle.graph_view.specs.Subs.{AreSubs, place_sub};

use abs_state::Place;
use bt_base::{Want, put_in_order};
use std::alloc::Global;

/// The subprogram of each program point.
fn owners(alloc: Global, places: &[Place]) -> Result<Vec<u32>, Want>
    ensures { IfOk result (λ list. list.items ≡ map place_sub places.now) }
{
    let list = places.iter().map(|place| place.sub).collect(alloc)?;
    Ok(list)
}

/// The subprograms of program points, rising.
pub fn subs_of(alloc: Global, places: &[Place]) -> Result<Vec<u32>, Want>
    ensures { IfOk result (λ subs. AreSubs places.now subs.items) }
{
    let mut subs = owners(alloc, places)?;
    put_in_order(&mut subs);
    Ok(subs)
}
