//! Systems of some words, and what a program point gives over a state.
ghost use Rattle.std.specs.Prelude.{◌≡◌, ◌<◌, true, IfOk, OnOk};
ghost use Rattle.abs_state.specs.Key.{compare};
ghost use Rattle.abs_state.specs.State.{is_state_over};
ghost use Rattle.flow_system.specs.Facts.{fact_at};
ghost use Rattle.flow_system.specs.State.{AllFit};
ghost use Rattle.transfer_fns.specs.Setting.{rules_over};

use crate::images::image_of;
use crate::texts::text_of;
use abs_state::{AbsState, Flags, Key, Next, Place, Right};
use assert_bind::bind;
use assert_lang::parse;
use bt_base::Want;
use bt_image::Image;
use call_effects::{Mask, Summary};
use flow_system::{Facts, System};
use std::alloc::Global;
use std::test::Fail;
use transfer_fns::SparcSystem;
use transfer_rules::{Fact, Source, Step, Write};
use transfer_values::stepped;
use value_lattice::Thresholds;

/// The system of words at 1000 and of assertions; None where they are refused.
pub(crate) fn system_of(
    alloc: Global,
    words: &[u32],
    assertions: &str,
    eight: bool,
) -> Result<Option<SparcSystem>, Fail> {
    let image = image_of(alloc, words)?.ok_or("no image")?;
    let text = assertions.as_bytes();
    if text.len() >= 1_000 {
        return Ok(None);
    }
    match parse(alloc, text) {
        Ok(list) => match bind(alloc, list.as_slice(), &image) {
            Ok(binding) => Ok(Some(SparcSystem::make(alloc, image, binding, eight)?)),
            Err(_) => Ok(None),
        },
        Err(_) => Ok(None),
    }
}

/// What is known before an instruction.
#[derive(Clone, Copy, Debug)]
pub(crate) enum Known {
    /// Nothing more.
    Nothing,
    /// A cell has a word.
    Word(u8, u32),
    /// A cell has a word of a range.
    Range(u8, i32, i32),
    /// A cell has any word.
    Any(u8),
    /// The condition codes are those of a comparison of a cell with a word.
    Compared(u8, u32),
    /// The condition codes are those of a comparison of two cells.
    Cells(u8, u8),
    /// The condition codes are those of what a cell has.
    Computed(u8),
}

/// What a subprogram may do, and the cells that it may write: where there are fewer than three, the others are 0.
#[derive(Clone, Copy, Debug)]
pub(crate) struct May {
    pub returns: bool,
    pub skips: bool,
    pub cells: [u8; 3],
}

/// A step that writes a cell.
fn writes(cell: u8, source: Source) -> Step {
    Step {
        depth: 0,
        first: Some(Write { cell, source }),
        second: None,
        flags: None,
    }
}

/// A step behind which the condition codes are known.
fn flags(flags: Option<Flags>) -> Step {
    Step {
        depth: 0,
        first: None,
        second: None,
        flags,
    }
}

/// A step behind which something is known.
fn step_of(known: Known) -> Step {
    match known {
        Known::Nothing => flags(None),
        Known::Word(cell, word) => writes(cell, Source::Exactly(word)),
        Known::Range(cell, lo, hi) => writes(cell, Source::Ranged { lo, hi }),
        Known::Any(cell) => writes(cell, Source::Anything),
        Known::Compared(left, word) => flags(Some(Flags::Cmp {
            left,
            right: Right::Word(word),
        })),
        Known::Cells(left, cell) => flags(Some(Flags::Cmp {
            left,
            right: Right::Cell(cell),
        })),
        Known::Computed(cell) => flags(Some(Flags::Res { cell })),
    }
}

/// The summary of what a subprogram may do.
fn summary(may: May) -> Summary {
    let mut written = Mask::none();
    for cell in may.cells {
        if 1 <= cell && cell < 48 {
            written = written.with(cell);
        }
    }
    Summary {
        returns: may.returns,
        skips: may.skips,
        written,
    }
}

/// The state at an entry, over the thresholds of a system.
fn entry(alloc: Global, t: &Thresholds) -> Result<AbsState, Fail>
    ensures { IfOk result (λ s. is_state_over t.now s ≡ true) }
{
    t.are_thresholds();
    Ok(AbsState::entry(alloc)?)
}

/// The state behind an entry where some things are known.
fn behind(alloc: Global, t: &Thresholds, image: &Image, known: &[Known]) -> Result<AbsState, Fail>
    ensures { IfOk result (λ s. is_state_over t.now s ≡ true) }
{
    let mut state = entry(alloc, t)?;
    for one in known {
        state = stepped(alloc, t, image, step_of(*one), state)?.ok_or("no state")?;
    }
    Ok(state)
}

/// No facts: they fit.
fn none(system: &SparcSystem, alloc: Global) -> Facts<Key, Fact>
    ensures { AllFit (rules_over system.now.thresholds system.now.image system.now.binding system.now.eight) (fact_at compare result) }
{
    let _ = system.eight();
    Facts::empty(alloc)
}

/// Adds the state at a program point.
fn put_state(
    system: &SparcSystem,
    facts: &mut Facts<Key, Fact>,
    p: Place,
    state: AbsState,
) -> Result<(), Want>
    requires fit { AllFit (rules_over system.now.thresholds system.now.image system.now.binding system.now.eight) (fact_at compare facts.old) }
    requires depth { p.depth < 2 }
    requires over { is_state_over system.now.thresholds state ≡ true }
    ensures { OnOk result
        (AllFit (rules_over system.now.thresholds system.now.image system.now.binding system.now.eight) (fact_at compare facts.new)) }
{
    let _ = system.eight();
    facts.put(Key::Node(p), Fact::State(state))?;
    Ok(())
}

/// Adds what a subprogram may do.
fn put_summary(
    system: &SparcSystem,
    facts: &mut Facts<Key, Fact>,
    sub: u32,
    summary: Summary,
) -> Result<(), Want>
    requires { AllFit (rules_over system.now.thresholds system.now.image system.now.binding system.now.eight) (fact_at compare facts.old) }
    ensures { OnOk result
        (AllFit (rules_over system.now.thresholds system.now.image system.now.binding system.now.eight) (fact_at compare facts.new)) }
{
    let _ = system.eight();
    let _ = summary.written.has(0);
    facts.put(Key::Summary { sub }, Fact::Sum(summary))?;
    Ok(())
}

/// What a program point gives: its state is that of an entry behind which some things are known, and all else that is known
/// is what some subprogram may do.
fn given(
    alloc: Global,
    system: &SparcSystem,
    p: Place,
    known: &[Known],
    callee: Option<May>,
) -> Result<String, Fail>
    requires { p.depth < 2 }
{
    let state = behind(alloc, system.thresholds(), system.image(), known)?;
    let mut facts = none(system, alloc);
    put_state(system, &mut facts, p, state)?;
    if let Some(may) = callee {
        put_summary(system, &mut facts, 0x1040, summary(may))?;
    }
    let pieces = system.give(alloc, Key::Node(p), &facts)?;
    Ok(text_of(alloc, p, pieces.as_slice())?)
}

/// Words at 1000 and 1004, a program point of the subprogram at 1000, what is known there and of the subprogram at 1040, and
/// the pieces that the program point gives.
pub(crate) struct Row {
    /// What the words say.
    pub name: &'static str,
    /// The words.
    pub words: [u32; 2],
    /// The address of the program point, where control goes on behind, and the windows between the entry's and its own.
    pub at: (u32, Next, u8),
    /// What is known there.
    pub known: [Known; 3],
    /// What the subprogram at 1040 may do, if that is known.
    pub callee: Option<May>,
    /// The assertions, a line each.
    pub assertions: &'static str,
    /// Whether multiplications and divisions are followed.
    pub eight: bool,
    /// The pieces, as text.
    pub want: &'static str,
}

/// Whether the program point of a row gives the pieces of the row.
pub(crate) fn is_row(alloc: Global, row: &Row) -> Result<bool, Fail> {
    let (pc, next, depth) = row.at;
    if depth >= 2 {
        return Ok(false);
    }
    let p = at(pc, next, depth);
    let system = system_of(alloc, &row.words, row.assertions, row.eight)?.ok_or("no system")?;
    let text = given(alloc, &system, p, &row.known, row.callee)?;
    Ok(text.as_str() == row.want)
}

/// A program point of the subprogram at 1000.
pub(crate) fn at(pc: u32, next: Next, depth: u8) -> Place
    ensures { result.depth ≡ depth }
{
    Place {
        sub: 0x1000,
        pc,
        next,
        depth,
    }
}

/// A program point of the subprogram at 1000, with control going on behind it.
pub(crate) fn onward(pc: u32, depth: u8) -> Place {
    at(pc, Next::At(pc.wrapping_add(4)), depth)
}
