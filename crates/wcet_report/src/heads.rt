ghost use Rattle.std.specs.Prelude.{◌≡◌, ◌++◌, ◌∷◌, [], IfOk, codes, decimal};
ghost use Rattle.std.specs.Fmt.{signed_decimal};
ghost use Rattle.std.specs.List.{flat_map};
ghost use Rattle.wcet_report.specs.Line.{spaced};
ghost use Rattle.wcet_report.specs.Order.{AreByHead};
ghost use Rattle.wcet_report.specs.Outcome.{by_words, loop_line};
ghost use Rattle.wcet_report.specs.Progress.{PutsByHead};

use crate::lines::{put_number, put_word};
use crate::loops::{By, LoopOutcome};
use crate::nodes::put_cell;
use crate::reasons::put_point;
use abs_state::HeadBound;
use bt_base::{Want, put_signed};
use std::alloc::Global;

/// Appends a word and a signed number in decimal, each behind a space.
fn put_named(text: &mut Vec<u8>, word: &[u8], number: i64) -> Result<(), Want>
    ensures { IfOk result (λ _. text.new.items ≡ text.old.items ++ spaced (word.now ∷ signed_decimal number ∷ [])) }
{
    put_word(text, word)?;
    text.push(b' ')?;
    put_signed(text, number)
}

/// Appends the words of a number of passes.
fn put_passes(text: &mut Vec<u8>, passes: u64) -> Result<(), Want>
    ensures { IfOk result (λ _. text.new.items
        ≡ text.old.items ++ spaced (codes "at" ∷ codes "most" ∷ decimal passes ∷ codes "by" ∷ [])) }
{
    put_word(text, b"at")?;
    put_word(text, b"most")?;
    put_number(text, passes)?;
    put_word(text, b"by")
}

/// Appends the step and the ends of a counter.
fn put_range(text: &mut Vec<u8>, bound: &HeadBound) -> Result<(), Want>
    ensures { IfOk result (λ _. text.new.items
        ≡ text.old.items ++ spaced (codes "step" ∷ signed_decimal bound.now.step
        ∷ codes "from" ∷ signed_decimal bound.now.lo ∷ codes "to" ∷ signed_decimal bound.now.hi ∷ [])) }
{
    put_named(text, b"step", bound.step)?;
    put_named(text, b"from", i64::from(bound.lo))?;
    put_named(text, b"to", i64::from(bound.hi))
}

/// Appends the words of a counter.
fn put_counter(text: &mut Vec<u8>, bound: &HeadBound) -> Result<(), Want>
    ensures { IfOk result (λ _. text.new.items ≡ text.old.items ++ spaced (by_words (By.Counter bound.now))) }
{
    put_passes(text, bound.passes)?;
    text.push(b' ')?;
    put_cell(text, bound.cell)?;
    put_range(text, bound)
}

/// Appends the words of an asserted number of passes.
fn put_asserted(text: &mut Vec<u8>, count: u64) -> Result<(), Want>
    ensures { IfOk result (λ _. text.new.items ≡ text.old.items ++ spaced (by_words (By.Asserted count))) }
{
    put_passes(text, count)?;
    put_word(text, b"assertion")?;
    Ok(())
}

/// Appends the words of what bounds a loop.
fn put_by(text: &mut Vec<u8>, by: &By) -> Result<(), Want>
    ensures { IfOk result (λ _. text.new.items ≡ text.old.items ++ spaced (by_words by.now)) }
{
    match by {
        By::Counter(bound) => put_counter(text, bound),
        By::Asserted(count) => put_asserted(text, *count),
        By::Nothing => put_word(text, b"unbounded"),
    }
}

/// Appends the line of a loop.
#[tactic(auto, unfolding(crate::specs::Line::line_of))]
fn put_loop(text: &mut Vec<u8>, each: &LoopOutcome) -> Result<(), Want>
    ensures { IfOk result (λ _. text.new.items ≡ text.old.items ++ loop_line each.now) }
{
    text.extend_from_slice(b"loop")?;
    put_point(text, &each.head)?;
    put_by(text, &each.by)?;
    text.push(b'\n')?;
    Ok(())
}

/// Appends the lines of loops.
fn put_each(text: &mut Vec<u8>, loops: &[LoopOutcome]) -> Result<(), Want>
    ensures { IfOk result (λ _. text.new.items ≡ text.old.items ++ flat_map loop_line loops.now) }
{
    for each in loops {
        put_loop(text, each)?;
    }
    Ok(())
}

/// The same loops by rising head.
fn by_head(alloc: Global, loops: &[LoopOutcome]) -> Result<Vec<LoopOutcome>, Want>
    ensures { IfOk result (λ list. AreByHead loops.now list.items) }
{
    let mut list = Vec::from_slice(alloc, loops)?;
    list.sort_unstable_by_key(
        |each: &LoopOutcome|
            ensures { result ≡ each.now.head }
        { each.head },
    );
    Ok(list)
}

/// Appends the lines of loops by rising head.
pub(crate) fn put_loops(
    alloc: Global,
    text: &mut Vec<u8>,
    loops: &[LoopOutcome],
) -> Result<(), Want>
    ensures { IfOk result (λ _. PutsByHead loops.now text.old.items text.new.items) }
{
    let list = by_head(alloc, loops)?;
    put_each(text, &list)
}
