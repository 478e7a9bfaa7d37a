ghost use Rattle.std.specs.Prelude.{◌≡◌, ◌++◌, IfOk};
ghost use Rattle.std.specs.List.{flat_map};
ghost use Rattle.std.specs.List.Sorted.{IsStrictlySortedBy};
ghost use Rattle.abs_state.specs.Key.{compare};
ghost use Rattle.graph_view.specs.Lists.{place_in, step_in, calling_in, open_in, AreOfKeys};
ghost use Rattle.graph_view.specs.Subs.{AreByOwner};

use abs_state::{GapKind, Key, Place};
use bt_base::Want;
use std::alloc::Global;

/// A step that may be taken from one program point of a subprogram to another.
#[derive(Clone, Copy, Debug, PartialEq, Eq)]
pub struct Step {
    /// Where it begins.
    pub from: Place,
    /// Where it leads.
    pub to: Place,
}

/// A call that may be made.
#[derive(Clone, Copy, Debug, PartialEq, Eq)]
pub struct Calling {
    /// The program point of its delay instruction.
    pub from: Place,
    /// The entry address of the subprogram that is called.
    pub callee: u32,
}

/// An instruction behind which not all is known.
#[derive(Clone, Copy, Debug, PartialEq, Eq)]
pub struct OpenPoint {
    /// The entry address of the subprogram in whose frame it is.
    pub sub: u32,
    /// Its address.
    pub pc: u32,
    /// What isn't known.
    pub why: GapKind,
}

/// Keys by their kind, each kind in the order of the keys.
#[derive(Debug, Drop)]
pub struct KeyLists {
    /// The program points.
    pub places: Vec<Place>,
    /// The steps.
    pub steps: Vec<Step>,
    /// The calls.
    pub callings: Vec<Calling>,
    /// The points behind which not all is known.
    pub opens: Vec<OpenPoint>,
}

/// Appends the program point of a key.
fn push_place(list: &mut Vec<Place>, key: &Key) -> Result<(), Want>
    ensures { IfOk result (λ _. list.new.items ≡ list.old.items ++ place_in key.now) }
{
    match key {
        Key::Node(place) => {
            list.push(*place)?;
            Ok(())
        }
        Key::Edge { .. } => Ok(()),
        Key::Call { .. } => Ok(()),
        Key::Summary { .. } => Ok(()),
        Key::Gap { .. } => Ok(()),
    }
}

/// Appends the step of a key.
fn push_step(list: &mut Vec<Step>, key: &Key) -> Result<(), Want>
    ensures { IfOk result (λ _. list.new.items ≡ list.old.items ++ step_in key.now) }
{
    match key {
        Key::Node(_) => Ok(()),
        Key::Edge { from, to } => {
            list.push(Step {
                from: *from,
                to: *to,
            })?;
            Ok(())
        }
        Key::Call { .. } => Ok(()),
        Key::Summary { .. } => Ok(()),
        Key::Gap { .. } => Ok(()),
    }
}

/// Appends the call of a key.
fn push_calling(list: &mut Vec<Calling>, key: &Key) -> Result<(), Want>
    ensures { IfOk result (λ _. list.new.items ≡ list.old.items ++ calling_in key.now) }
{
    match key {
        Key::Node(_) => Ok(()),
        Key::Edge { .. } => Ok(()),
        Key::Call { from, callee } => {
            list.push(Calling {
                from: *from,
                callee: *callee,
            })?;
            Ok(())
        }
        Key::Summary { .. } => Ok(()),
        Key::Gap { .. } => Ok(()),
    }
}

/// Appends the open point of a key.
fn push_open(list: &mut Vec<OpenPoint>, key: &Key) -> Result<(), Want>
    ensures { IfOk result (λ _. list.new.items ≡ list.old.items ++ open_in key.now) }
{
    match key {
        Key::Node(_) => Ok(()),
        Key::Edge { .. } => Ok(()),
        Key::Call { .. } => Ok(()),
        Key::Summary { .. } => Ok(()),
        Key::Gap { sub, pc, why } => {
            list.push(OpenPoint {
                sub: *sub,
                pc: *pc,
                why: *why,
            })?;
            Ok(())
        }
    }
}

/// The program points of keys, in their order.
fn places_of(alloc: Global, keys: &[Key]) -> Result<Vec<Place>, Want>
    ensures { IfOk result (λ list. list.items ≡ flat_map place_in keys.now) }
{
    let mut list = Vec::new(alloc);
    for key in keys {
        push_place(&mut list, key)?;
    }
    Ok(list)
}

/// The steps of keys, in their order.
fn steps_of(alloc: Global, keys: &[Key]) -> Result<Vec<Step>, Want>
    ensures { IfOk result (λ list. list.items ≡ flat_map step_in keys.now) }
{
    let mut list = Vec::new(alloc);
    for key in keys {
        push_step(&mut list, key)?;
    }
    Ok(list)
}

/// The calls of keys, in their order.
fn callings_of(alloc: Global, keys: &[Key]) -> Result<Vec<Calling>, Want>
    ensures { IfOk result (λ list. list.items ≡ flat_map calling_in keys.now) }
{
    let mut list = Vec::new(alloc);
    for key in keys {
        push_calling(&mut list, key)?;
    }
    Ok(list)
}

/// The open points of keys, in their order.
fn opens_of(alloc: Global, keys: &[Key]) -> Result<Vec<OpenPoint>, Want>
    ensures { IfOk result (λ list. list.items ≡ flat_map open_in keys.now) }
{
    let mut list = Vec::new(alloc);
    for key in keys {
        push_open(&mut list, key)?;
    }
    Ok(list)
}

impl KeyLists {
    /// Keys by their kind. The keys rise, so each list is by rising subprograms.
    pub fn of(alloc: Global, keys: &[Key]) -> Result<KeyLists, Want>
        requires { IsStrictlySortedBy compare keys.now }
        ensures keys { IfOk result (AreOfKeys keys.now) }
        ensures owned { IfOk result AreByOwner }
    {
        let places = places_of(alloc, keys)?;
        let steps = steps_of(alloc, keys)?;
        let callings = callings_of(alloc, keys)?;
        let opens = opens_of(alloc, keys)?;
        Ok(KeyLists {
            places,
            steps,
            callings,
            opens,
        })
    }
}
