ghost use Rattle.std.specs.Prelude.{◌≡◌, ◌++◌, IfOk};
ghost use Rattle.std.specs.List.{flat_map};
ghost use Rattle.std.specs.List.Sorted.{IsStrictlyIncreasing, IsStrictlySortedBy};
ghost use Rattle.abs_state.specs.Key.{compare};
ghost use Rattle.graph_text.specs.Text.{IsGraphText, part_text, whole_text};
ghost use Rattle.graph_view.specs.Subs.{AreByOwner};

use crate::lines::{put_calls, put_opens, put_places, put_steps, put_sub};
use abs_state::Key;
use bt_base::Want;
use bt_image::Image;
use graph_view::{KeyLists, of_sub, subs_of};
use std::alloc::Global;

/// Appends the lines of what is of a subprogram.
fn put_part(text: &mut Vec<u8>, lists: &KeyLists, sub: u32) -> Result<(), Want>
    requires { AreByOwner lists.now }
    ensures { IfOk result (λ _. text.new.items ≡ text.old.items ++ part_text lists.now.places.items lists.now.steps.items lists.now.callings.items lists.now.opens.items sub) }
{
    put_places(text, of_sub(&lists.places, sub))?;
    put_steps(text, of_sub(&lists.steps, sub))?;
    put_calls(text, of_sub(&lists.callings, sub))?;
    put_opens(text, of_sub(&lists.opens, sub))
}

/// Appends the lines of a subprogram.
fn put_whole(
    text: &mut Vec<u8>,
    image: &Image,
    returning: &[u32],
    lists: &KeyLists,
    sub: u32,
) -> Result<(), Want>
    requires owned { AreByOwner lists.now }
    requires returning { IsStrictlyIncreasing returning.now }
    ensures { IfOk result (λ _. text.new.items ≡ text.old.items ++ whole_text image.now returning.now lists.now sub) }
{
    put_sub(text, image, returning, sub)?;
    put_part(text, lists, sub)
}

/// Appends the lines of subprograms.
fn put_subs(
    text: &mut Vec<u8>,
    image: &Image,
    returning: &[u32],
    lists: &KeyLists,
    subs: &[u32],
) -> Result<(), Want>
    requires owned { AreByOwner lists.now }
    requires returning { IsStrictlyIncreasing returning.now }
    ensures { IfOk result (λ _. text.new.items ≡ text.old.items ++ flat_map (whole_text image.now returning.now lists.now) subs.now) }
{
    for sub in subs {
        put_whole(text, image, returning, lists, *sub)?;
    }
    Ok(())
}

/// The text of the keys of a graph, which rise, where these subprograms return, which rise too.
///
/// The subprograms with program points stand by their entries, and what is of each in the order of the keys. Its
/// lines end with a line feed, and it is ASCII.
pub fn graph_text(
    alloc: Global,
    keys: &[Key],
    returning: &[u32],
    image: &Image,
) -> Result<Vec<u8>, Want>
    requires keys { IsStrictlySortedBy compare keys.now }
    requires returning { IsStrictlyIncreasing returning.now }
    ensures { IfOk result (λ text. IsGraphText image.now keys.now returning.now text.items) }
{
    let lists = KeyLists::of(alloc, keys)?;
    let subs = subs_of(alloc, &lists.places)?;
    let mut text = Vec::from_slice(alloc, b"boundt graph 1\n")?;
    put_subs(&mut text, image, returning, &lists, &subs)?;
    text.extend_from_slice(b"end\n")?;
    Ok(text)
}
