//! Parts go into slots when they are shared, and come out of them when they are shared no more.
ghost use Rattle.std.specs.Prelude.{◌≡◌, ◌≤◌, [], map, Some, IfOk, vec_capacity};
ghost use Rattle.std.specs.Slots.{slots_items, slots_len, IsFull};
ghost use Rattle.shard_slots.specs.Part.{HaveParts};

use atomic_table::Closed;
use bt_base::Want;
use std::alloc::Global;

/// What lies in the slots of the parts of a vector, in order. The vector is left empty, with the room that it had.
pub(crate) fn into_slots<T: Drop>(parts: &mut Vec<T>) -> Result<Vec<Option<T>>, Want>
    ensures slots { IfOk result (λ slots. slots.items ≡ map Some parts.old.items) }
    ensures left { IfOk result (λ _. parts.new.items ≡ []) }
    ensures room { vec_capacity parts.new ≡ vec_capacity parts.old }
{
    let mut slots = Vec::with_capacity(*parts.allocator(), parts.len())?;
    while let Some(part) = parts.pop() {
        slots.push_reserved(Some(part));
    }
    slots.reverse();
    Ok(slots)
}

/// The parts in the slots of a table that isn't shared any more, in order, in a vector that has room for them.
pub(crate) fn out_of_slots<T: Drop>(
    mut closed: Closed<Option<T>, Global>,
    mut parts: Vec<T>,
) -> Vec<T>
    requires full { IsFull closed.slots }
    requires parts { HaveParts (slots_items closed.slots) }
    requires left { parts.items ≡ [] }
    requires room { slots_len closed.slots ≤ vec_capacity parts }
    ensures { map Some result.items ≡ slots_items closed.slots }
{
    for n in 0..closed.slot_count() {
        match closed.take(n) {
            Some(part) => parts.push_reserved(part),
            None => unreachable!(),
        }
    }
    closed.free();
    parts
}
