//! The text of the graph of an analysis.
ghost use Rattle.std.specs.Prelude.{◌≡◌, IfOk};
ghost use Rattle.std.specs.Map.{keys_of};
ghost use Rattle.bound_task.specs.Returning.{returning_in};
ghost use Rattle.graph_text.specs.Text.{IsGraphText};

use crate::{Analysis, returning};
use bt_base::Want;
use bt_image::Image;
use std::alloc::Global;

/// The text of the due graph of an analysis of this image: that of its keys, and of the subprograms that return by its
/// facts.
pub fn graph_text(alloc: Global, a: &Analysis, image: &Image) -> Result<Vec<u8>, Want>
    ensures { IfOk result (λ text. IsGraphText image.now (keys_of a.now.closed) (returning_in a.now.closed) text.items) }
{
    let facts = a.closed.facts();
    let keys = facts.keys(alloc)?;
    let returning = returning(alloc, facts)?;
    graph_text::graph_text(alloc, &keys, &returning, image)
}
