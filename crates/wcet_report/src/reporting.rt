ghost use Rattle.std.specs.Prelude.{◌≡◌, ◌++◌, ◌<◌, All, IfOk, length, map};
ghost use Rattle.wcet_report.specs.Outcome.{context_line};
ghost use Rattle.wcet_report.specs.Progress.{PutsLines, PutsEach};
ghost use Rattle.wcet_report.specs.Ranking.{picked};
ghost use Rattle.wcet_report.specs.Report.{IsReport};

use crate::contexts::put_context;
use crate::heads::put_loops;
use crate::lines::{put_bound, put_function};
use crate::outcome::{Outcome, Outcomes};
use crate::reasons::put_reasons;
use crate::roots::{open_bounds, put_roots};
use crate::sorting::{Rank, in_order};
use bt_base::Want;
use bt_image::Image;
use std::alloc::Global;

/// Appends the line of a context.
#[tactic(auto, unfolding(crate::specs::Line::line_of, crate::specs::Context::context_text))]
fn put_line(alloc: Global, text: &mut Vec<u8>, image: &Image, outcome: &Outcome) -> Result<(), Want>
    ensures { IfOk result (λ _. text.new.items ≡ text.old.items ++ context_line image.now outcome.now) }
{
    text.extend_from_slice(b"context")?;
    put_function(text, image, outcome.sub)?;
    text.push(b' ')?;
    put_context(alloc, text, &outcome.context)?;
    put_bound(text, outcome.bound)?;
    text.push(b'\n')?;
    Ok(())
}

/// Appends the lines of a context: its own, its loops and its reasons.
fn put_outcome(
    alloc: Global,
    text: &mut Vec<u8>,
    image: &Image,
    outcome: &Outcome,
) -> Result<(), Want>
    ensures { IfOk result (λ _. PutsLines image.now outcome.now text.old.items text.new.items) }
{
    put_line(alloc, text, image, outcome)?;
    put_loops(alloc, text, outcome.loops.as_slice())?;
    put_reasons(text, image, outcome.reasons.as_slice())
}

/// Appends the lines of the contexts in their order.
fn put_contexts(
    alloc: Global,
    text: &mut Vec<u8>,
    image: &Image,
    list: &[Outcome],
    order: &[Rank],
) -> Result<(), Want>
    requires { All (λ rank. rank.index < length list.now) order.now }
    ensures { IfOk result (λ _. (d : Outcome) → PutsEach image.now (map (picked list.now d) order.now) text.old.items text.new.items) }
{
    for rank in order {
        put_outcome(alloc, text, image, &list[rank.index])?;
    }
    Ok(())
}

/// The report of these outcomes.
///
/// The roots stand in their order, the contexts by their entry, the plain one first, and the others by the bytes of
/// their text; the loops of a context by their head. Its lines end with a line feed, and it is ASCII.
pub fn text(alloc: Global, outcomes: &Outcomes, image: &Image) -> Result<Vec<u8>, Want>
    ensures { IfOk result (λ text. IsReport image.now outcomes.now text.items) }
{
    let list = outcomes.list.as_slice();
    let bounds = open_bounds(alloc, list)?;
    let order = in_order(alloc, list)?;
    let mut text = Vec::from_slice(alloc, b"boundt report 1\n")?;
    put_roots(&mut text, image, outcomes.roots.as_slice(), &bounds)?;
    put_contexts(alloc, &mut text, image, list, &order)?;
    text.extend_from_slice(b"end\n")?;
    Ok(text)
}
