ghost use Rattle.std.specs.Prelude.{◌≡◌, ◌++◌, ◌∷◌, [], IfOk, codes};
ghost use Rattle.std.specs.List.{flat_map};
ghost use Rattle.bt_base.specs.Graph.{has as has_so};
ghost use Rattle.graph_text.specs.Line.{place_line, step_line, call_line, open_line, kind_word, sub_line, end_word};
ghost use Rattle.std.specs.List.Sorted.{IsStrictlyIncreasing};
ghost use Rattle.wcet_report.specs.Line.{spaced};

use abs_state::{GapKind, Place};
use bt_base::Want;
use bt_image::Image;
use graph_view::{Calling, OpenPoint, Step};
use wcet_report::{put_address, put_function, put_point, put_word};

/// Appends the line of a program point.
#[tactic(auto, unfolding(wcet_report::specs::Line::line_of))]
fn put_place(text: &mut Vec<u8>, place: &Place) -> Result<(), Want>
    ensures { IfOk result (λ _. text.new.items ≡ text.old.items ++ place_line place.now) }
{
    text.extend_from_slice(b"node")?;
    put_point(text, place)?;
    text.push(b'\n')?;
    Ok(())
}

/// Appends the line of a step.
#[tactic(auto, unfolding(wcet_report::specs::Line::line_of))]
fn put_step(text: &mut Vec<u8>, step: &Step) -> Result<(), Want>
    ensures { IfOk result (λ _. text.new.items ≡ text.old.items ++ step_line step.now) }
{
    text.extend_from_slice(b"edge")?;
    put_point(text, &step.from)?;
    put_point(text, &step.to)?;
    text.push(b'\n')?;
    Ok(())
}

/// Appends the line of a call.
#[tactic(auto, unfolding(wcet_report::specs::Line::line_of))]
fn put_call(text: &mut Vec<u8>, call: &Calling) -> Result<(), Want>
    ensures { IfOk result (λ _. text.new.items ≡ text.old.items ++ call_line call.now) }
{
    text.extend_from_slice(b"call")?;
    put_point(text, &call.from)?;
    put_address(text, call.callee)?;
    text.push(b'\n')?;
    Ok(())
}

/// Appends what isn't known, behind a space.
fn put_kind(text: &mut Vec<u8>, why: GapKind) -> Result<(), Want>
    ensures { IfOk result (λ _. text.new.items ≡ text.old.items ++ spaced (kind_word why ∷ [])) }
{
    match why {
        GapKind::Jump => put_word(text, b"jump"),
        GapKind::Call => put_word(text, b"call"),
        GapKind::Instr => put_word(text, b"instr"),
    }
}

/// Appends the line of a point behind which not all is known.
#[tactic(auto, unfolding(wcet_report::specs::Line::line_of))]
fn put_open(text: &mut Vec<u8>, point: &OpenPoint) -> Result<(), Want>
    ensures { IfOk result (λ _. text.new.items ≡ text.old.items ++ open_line point.now) }
{
    text.extend_from_slice(b"gap")?;
    put_kind(text, point.why)?;
    put_address(text, point.pc)?;
    text.push(b'\n')?;
    Ok(())
}

/// Whether a subprogram is among those that return.
fn does_return(returning: &[u32], sub: u32) -> bool
    requires { IsStrictlyIncreasing returning.now }
    ensures { result ≡ has_so returning.now sub }
{
    returning.binary_search(&sub).is_ok()
}

/// Appends whether a subprogram returns, behind a space.
fn put_end(text: &mut Vec<u8>, returns: bool) -> Result<(), Want>
    ensures { IfOk result (λ _. text.new.items ≡ text.old.items ++ spaced (end_word returns ∷ [])) }
{
    if returns {
        put_word(text, b"returns")
    } else {
        put_word(text, b"stays")
    }
}

/// Appends the line of a subprogram.
#[tactic(auto, unfolding(wcet_report::specs::Line::line_of))]
pub(crate) fn put_sub(
    text: &mut Vec<u8>,
    image: &Image,
    returning: &[u32],
    sub: u32,
) -> Result<(), Want>
    requires { IsStrictlyIncreasing returning.now }
    ensures { IfOk result (λ _. text.new.items ≡ text.old.items ++ sub_line image.now returning.now sub) }
{
    text.extend_from_slice(b"sub")?;
    put_function(text, image, sub)?;
    put_end(text, does_return(returning, sub))?;
    text.push(b'\n')?;
    Ok(())
}

/// Appends the lines of program points.
pub(crate) fn put_places(text: &mut Vec<u8>, places: &[Place]) -> Result<(), Want>
    ensures { IfOk result (λ _. text.new.items ≡ text.old.items ++ flat_map place_line places.now) }
{
    for place in places {
        put_place(text, place)?;
    }
    Ok(())
}

/// Appends the lines of steps.
pub(crate) fn put_steps(text: &mut Vec<u8>, steps: &[Step]) -> Result<(), Want>
    ensures { IfOk result (λ _. text.new.items ≡ text.old.items ++ flat_map step_line steps.now) }
{
    for step in steps {
        put_step(text, step)?;
    }
    Ok(())
}

/// Appends the lines of calls.
pub(crate) fn put_calls(text: &mut Vec<u8>, calls: &[Calling]) -> Result<(), Want>
    ensures { IfOk result (λ _. text.new.items ≡ text.old.items ++ flat_map call_line calls.now) }
{
    for call in calls {
        put_call(text, call)?;
    }
    Ok(())
}

/// Appends the lines of points behind which not all is known.
pub(crate) fn put_opens(text: &mut Vec<u8>, points: &[OpenPoint]) -> Result<(), Want>
    ensures { IfOk result (λ _. text.new.items ≡ text.old.items ++ flat_map open_line points.now) }
{
    for point in points {
        put_open(text, point)?;
    }
    Ok(())
}
