//! States that are built by steps, and what a test compares of their cells.
ghost use Rattle.std.specs.Prelude.{◌≡◌, true, IfOk};
ghost use Rattle.abs_state.specs.State.{is_state_over};

use abs_state::{AbsState, Flags};
use bt_image::Image;
use std::alloc::Global;
use std::process::Abort;
use std::test::Fail;
use transfer_rules::{Source, Step, Write};
use transfer_values::stepped;
use value_lattice::{Thresholds, Value};

/// An executable of 256 bytes: two instructions at 02000000, in the section 1.
const WORDS: [u32; 64] = [
    0x7f454c46, 0x01020100, 0, 0, 0x00020002, 1, 0x02000000, 0, 0x60, 0, 0x00340000, 0x28,
    0x00040003, 0x81c3e008, 0x01000000, 0, 0, 0, 0, 1, 0x02000000, 8, 0x12000001, 0x00660000, 0, 0,
    0, 0, 0, 0, 0, 0, 0, 0, 0, 1, 6, 0x02000000, 0x34, 8, 0, 0, 4, 0, 0, 2, 0, 0, 0x3c, 0x20, 3, 1,
    4, 0x10, 0, 3, 0, 0, 0x5c, 3, 0, 0, 1, 0,
];

/// The image of the executable.
pub(crate) fn image_of(rt: &(impl Abort + AllocGlobal)) -> Result<Image, Fail> {
    let alloc = rt.alloc();
    let mut bytes = Vec::new(alloc);
    for word in &WORDS {
        bytes.extend_from_slice(&word.to_be_bytes())?;
    }
    match Image::read(alloc, &bytes) {
        Ok(image) => Ok(image),
        Err(_) => panic!(rt; "refused"),
    }
}

/// What a test compares of a value.
#[derive(Clone, Copy, Debug, PartialEq)]
pub(crate) enum Seen {
    /// The least and the greatest word of a set, and how many it has.
    Set(u32, u32, usize),
    Range(i32, i32),
    Ret,
}

/// Any word.
pub(crate) const ANY: Seen = Seen::Range(i32::MIN, i32::MAX);

/// One word.
pub(crate) fn one(word: u32) -> Seen {
    Seen::Set(word, word, 1)
}

/// What a test compares of a cell.
pub(crate) fn seen_in(state: &AbsState, c: u8) -> Seen {
    if c >= 48 {
        return ANY;
    }
    match state.get(c) {
        Value::Words(words) => {
            let members = words.members();
            match (members.first(), members.last()) {
                (Some(first), Some(last)) => Seen::Set(*first, *last, members.len()),
                _ => ANY,
            }
        }
        Value::Range { lo, hi } => Seen::Range(*lo, *hi),
        Value::Ret => Seen::Ret,
    }
}

/// A step that changes nothing.
pub(crate) fn nothing() -> Step {
    Step {
        depth: 0,
        first: None,
        second: None,
        flags: None,
    }
}

/// A step that writes one cell.
pub(crate) fn writes(cell: u8, source: Source) -> Step {
    Step {
        depth: 0,
        first: Some(Write { cell, source }),
        second: None,
        flags: None,
    }
}

/// A step that changes the condition codes alone.
pub(crate) fn flags(flags: Flags) -> Step {
    Step {
        depth: 0,
        first: None,
        second: None,
        flags: Some(flags),
    }
}

/// The state at an entry, over thresholds.
fn entry(alloc: Global, t: &Thresholds) -> Result<AbsState, Fail>
    ensures { IfOk result (λ s. is_state_over t.now s ≡ true) }
{
    t.are_thresholds();
    Ok(AbsState::entry(alloc)?)
}

/// The state at an entry behind steps.
pub(crate) fn behind(
    rt: &(impl Abort + AllocGlobal),
    t: &Thresholds,
    image: &Image,
    steps: &[Step],
) -> Result<AbsState, Fail>
    ensures { IfOk result (λ s. is_state_over t.now s ≡ true) }
{
    let mut state = entry(rt.alloc(), t)?;
    for step in steps {
        state = match stepped(rt.alloc(), t, image, *step, state)? {
            Some(next) => next,
            None => panic!(rt; "no state"),
        };
    }
    Ok(state)
}
