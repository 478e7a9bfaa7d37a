//! Pieces as one line of text. Addresses and words are hexadecimal; cells, and the ends of ranges, are decimal.
use abs_state::{AbsState, Args, Flags, GapKind, Key, Next, Place, Right};
use call_effects::Summary;
use std::alloc::{AllocError, Global};
use transfer_rules::Fact;
use value_lattice::Value;

/// The registers of the arguments of a call, in their order.
const ARGUMENTS: [u8; 13] = [8, 9, 10, 11, 12, 13, 1, 2, 3, 4, 5, 6, 7];

/// Words: each one, or the first and the last and how many they are.
fn push_words(text: &mut String, words: &[u32]) -> Result<(), AllocError> {
    let count = words.len();
    if count > 4 {
        if let (Some(first), Some(last)) = (words.first(), words.last()) {
            write!(text, "={first:x}~{last:x}#{count}")?;
        }
        return Ok(());
    }
    let mut before = "=";
    for word in words {
        write!(text, "{before}{word:x}")?;
        before = "|";
    }
    Ok(())
}

/// What is known of a cell; nothing where it is any word.
fn push_cell(text: &mut String, cell: u8, value: &Value) -> Result<(), AllocError> {
    match value {
        Value::Words(words) => {
            write!(text, " {cell}")?;
            push_words(text, words.members())
        }
        Value::Range { lo, hi } => {
            if *lo == i32::MIN && *hi == i32::MAX {
                return Ok(());
            }
            write!(text, " {cell}={lo}..{hi}")
        }
        Value::Ret => write!(text, " {cell}=ret"),
    }
}

/// What the condition codes are those of; nothing where that isn't known.
fn push_flags(text: &mut String, flags: Flags) -> Result<(), AllocError> {
    match flags {
        Flags::Unknown => Ok(()),
        Flags::Res { cell } => write!(text, " res {cell}"),
        Flags::Cmp { left, right } => match right {
            Right::Cell(right) => write!(text, " cmp {left} cell {right}"),
            Right::Word(right) => write!(text, " cmp {left} {right:x}"),
        },
    }
}

/// A state: what is known of the cells but cell 0, and of the condition codes.
fn push_state(text: &mut String, state: &AbsState) -> Result<(), AllocError> {
    for cell in 1..48u8 {
        push_cell(text, cell, state.get(cell))?;
    }
    push_flags(text, state.flags())
}

/// Arguments, by their registers.
fn push_arguments(text: &mut String, arguments: &Args) -> Result<(), AllocError> {
    for (cell, value) in ARGUMENTS.iter().zip(arguments.list.iter()) {
        push_cell(text, *cell, value)?;
    }
    Ok(())
}

/// What a subprogram may do.
fn push_summary(text: &mut String, summary: &Summary) -> Result<(), AllocError> {
    if summary.returns {
        text.push_str(" returns")?;
    }
    if summary.skips {
        text.push_str(" skips")?;
    }
    for cell in 0..48u8 {
        if summary.written.has(cell) {
            write!(text, " {cell}")?;
        }
    }
    Ok(())
}

/// A place: its subprogram where that isn't `sub`, its address, where control goes on unless that is the address behind it,
/// and its depth.
fn push_place(text: &mut String, sub: u32, place: Place) -> Result<(), AllocError> {
    if place.sub != sub {
        let other = place.sub;
        write!(text, " {other:x}:")?;
    }
    let pc = place.pc;
    write!(text, " {pc:x}")?;
    match place.next {
        Next::At(next) => {
            if next != pc.wrapping_add(4) {
                write!(text, ">{next:x}")?;
            }
        }
        Next::Into(target) => write!(text, ">into {target:x}")?,
        Next::Back => text.push_str(">back")?,
    }
    let depth = place.depth;
    write!(text, "/{depth}")
}

/// Why something isn't followed.
fn name(why: GapKind) -> &'static str {
    match why {
        GapKind::Jump => "jump",
        GapKind::Call => "call",
        GapKind::Instr => "instr",
    }
}

/// A key that a place gives: a place that it begins from is left out where it is that one.
fn push_key(text: &mut String, giver: Place, key: Key) -> Result<(), AllocError> {
    match key {
        Key::Node(place) => {
            text.push_str("node")?;
            push_place(text, giver.sub, place)
        }
        Key::Edge { from, to } => {
            text.push_str("edge")?;
            if from != giver {
                push_place(text, giver.sub, from)?;
            }
            push_place(text, giver.sub, to)
        }
        Key::Call { from, callee } => {
            text.push_str("call")?;
            if from != giver {
                push_place(text, giver.sub, from)?;
            }
            write!(text, " {callee:x}")
        }
        Key::Summary { sub } => write!(text, "sum {sub:x}"),
        Key::Gap { sub, pc, why } => {
            let why = name(why);
            write!(text, "gap {sub:x} {pc:x} {why}")
        }
    }
}

/// A fact.
pub(crate) fn push_fact(text: &mut String, fact: &Fact) -> Result<(), AllocError> {
    match fact {
        Fact::State(state) => push_state(text, state),
        Fact::Args(arguments) => push_arguments(text, arguments),
        Fact::Sum(summary) => push_summary(text, summary),
        Fact::Mark => Ok(()),
    }
}

/// The pieces that a place gives.
pub(crate) fn text_of(
    alloc: Global,
    giver: Place,
    pieces: &[(Key, Fact)],
) -> Result<String, AllocError> {
    let mut text = String::new(alloc);
    let mut before = "";
    for piece in pieces {
        text.push_str(before)?;
        push_key(&mut text, giver, piece.0)?;
        push_fact(&mut text, &piece.1)?;
        before = "; ";
    }
    Ok(text)
}
