//! An order of contexts in which callers come before what they call.
ghost use Rattle.std.specs.Prelude.{◌≡◌, ◌<◌, true, ℕ, IfOk, length};
ghost use Rattle.bt_base.specs.Graph.{has};

use crate::opened::Opened;
use bt_base::{Graph, Want};
use cyclic_parts::order_of;
use std::alloc::Global;

/// Adds a call between two contexts to a graph, if one is followed.
fn add_link(graph: &mut Graph, from: u32, link: Option<usize>) -> Result<(), Want>
    requires { from < length graph.old }
    ensures { length graph.new ≡ length graph.old }
{
    match link {
        None => Ok(()),
        Some(to) => {
            if to < graph.count() as usize {
                return graph.add(from, to as u32);
            }
            Ok(())
        }
    }
}

/// Adds the calls of a context to a graph.
fn add_links(graph: &mut Graph, from: u32, links: &[Option<usize>]) -> Result<(), Want>
    requires { from < length graph.old }
    ensures { length graph.new ≡ length graph.old }
{
    for link in links {
        add_link(graph, from, *link)?;
    }
    Ok(())
}

/// The numbers of contexts: callers before what they call. There are none where there are so many contexts that they have no
/// numbers of 32 bits. It says only that it names contexts, so that nothing but speed rests on it.
pub fn order(alloc: Global, opened: &[Opened]) -> Result<Vec<u32>, Want>
    ensures { IfOk result (λ order. (n : ℕ) → has order.items n ≡ true → n < length opened.now) }
{
    if opened.len() > 0xffff_ffff {
        return Ok(Vec::new(alloc));
    }
    let count = opened.len() as u32;
    let mut graph = Graph::new(alloc, count)?;
    for from in 0..count {
        add_links(&mut graph, from, &opened[from as usize].links)?;
    }
    order_of(alloc, &graph)
}
