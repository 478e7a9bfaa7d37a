ghost use Rattle.std.specs.Prelude.{◌≡◌, ◌==◌, ◌||◌, ◌<◌, ◌≤◌, ℕ, false, [], ◌∷◌, length, slice_index, slice_index_or, nat_lt, replicate, IfOk};
ghost use Rattle.std.specs.List.Sorted.{IsStrictlyIncreasing};
ghost use Rattle.bt_base.specs.Graph.{has};
ghost use Rattle.counter_bound.specs.Body.{is_marked, is_inner, AreInner};
ghost use Rattle.loop_nest.specs.LoopNest.{HeadsRise};
ghost use Rattle.loop_nest.specs.declared.natural_loop.Loop.{Loop as ALoop};

use bt_base::Want;
use loop_nest::Loop;
use std::alloc::Global;

/// Marks the place of a node in a body, if it is there.
fn mark_node(body: &[u32], marks: &mut [bool], node: u32)
    requires rising { IsStrictlyIncreasing body.now }
    requires count { length marks.old ≡ length body.now }
    ensures { (i : ℕ) → i < length body.now → is_marked marks.new i ≡ (is_marked marks.old i || (slice_index body.now i == node)) }
{
    if let Ok(place) = body.binary_search(&node) {
        marks[place] = true;
    }
}

/// Marks the places of some nodes in a body.
fn mark_all(body: &[u32], marks: &mut [bool], nodes: &[u32])
    requires rising { IsStrictlyIncreasing body.now }
    requires count { length marks.old ≡ length body.now }
    ensures { (i : ℕ) → i < length body.now → is_marked marks.new i ≡ (is_marked marks.old i || has nodes.now (slice_index body.now i)) }
{
    for node in nodes {
        mark_node(body, marks, *node);
    }
}

/// How many loops have heads below one.
fn heads_below(loops: &[Loop], head: u32) -> usize
    requires { HeadsRise loops.now }
    ensures within { result ≤ length loops.now }
    ensures below { (k : ℕ) (d : ALoop) → k < result → (slice_index_or loops.now k d).head < head }
    ensures above { (k : ℕ) (d : ALoop) → result ≤ k → k < length loops.now → head ≤ (slice_index_or loops.now k d).head }
{
    loops.partition_point(
        |one: &Loop| -> bool
            ensures { result ≡ nat_lt one.now.head head }
        { one.head < head },
    )
}

/// Marks the nodes of the loop of a node, if it is a head other than the one whose body this is.
fn mark_loop(head: u32, body: &[u32], marks: &mut [bool], loops: &[Loop], node: u32)
    requires heads { HeadsRise loops.now }
    requires rising { IsStrictlyIncreasing body.now }
    requires count { length marks.old ≡ length body.now }
    ensures { (i : ℕ) → i < length body.now
        → is_marked marks.new i ≡ (is_marked marks.old i || is_inner loops.now head (node ∷ []) (slice_index body.now i)) }
{
    let place = heads_below(loops, node);
    if place < loops.len() && loops[place].head == node && node != head {
        mark_all(body, marks, &loops[place].body);
    }
}

/// Marks the nodes of the loops whose heads are in a body, other than the one whose body this is.
fn mark_loops(head: u32, body: &[u32], marks: &mut [bool], loops: &[Loop])
    requires heads { HeadsRise loops.now }
    requires rising { IsStrictlyIncreasing body.now }
    requires count { length marks.old ≡ length body.now }
    ensures { (i : ℕ) → i < length body.now
        → is_marked marks.new i ≡ (is_marked marks.old i || is_inner loops.now head body.now (slice_index body.now i)) }
{
    for node in body {
        mark_loop(head, body, marks, loops, *node);
    }
}

/// No mark, for so many places.
fn no_marks(alloc: Global, count: usize) -> Result<Vec<bool>, Want>
    ensures { IfOk result (λ marks. marks.items ≡ replicate count false) }
{
    Ok(vec![in alloc; false; count]?)
}

/// For each node of a loop's body whether it is in a loop inside: those of the heads in the body.
pub(crate) fn inner_marks(
    alloc: Global,
    loops: &[Loop],
    head: u32,
    body: &[u32],
) -> Result<Vec<bool>, Want>
    requires heads { HeadsRise loops.now }
    requires rising { IsStrictlyIncreasing body.now }
    ensures { IfOk result (λ marks. AreInner loops.now head body.now marks.items) }
{
    let mut marks = no_marks(alloc, body.len())?;
    mark_loops(head, body, &mut marks, loops);
    Ok(marks)
}
