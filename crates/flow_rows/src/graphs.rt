//! What a system starts from, what a place looks at, and what comes together at one key.
use crate::systems::{at, onward, system_of};
use crate::texts::{push_fact, text_of};
use abs_state::{Key, Next, Place};
use flow_core::{Core, drive};
use flow_system::System;
use std::alloc::Global;
use std::test::Fail;
use transfer_fns::SparcSystem;

/// The system of words at 1000 and of assertions.
fn made(alloc: Global, words: &[u32], assertions: &str) -> Result<SparcSystem, Fail> {
    Ok(system_of(alloc, words, assertions, false)?.ok_or("no system")?)
}

/// What a root and a stub begin with: the stub may write each register that a call leaves free.
const STARTS: &str = "node 1000/0 15=ret; sum 1040 returns 1 2 3 4 5 6 7 8 9 10 11 12 13 14 15 \
    32 33 34 35 36 37 38 39 40 41 42 43 44 45 46 47";

#[test]
fn starts(rt: HostRuntime) -> Result<(), Fail> {
    let alloc = rt.alloc();
    let system = made(alloc, &[], "root 0x1000\nstub 0x1040 time 5\n")?;
    let pieces = system.starts(alloc)?;
    let text = text_of(alloc, onward(0x1000, 0), pieces.as_slice())?;
    assert!(rt; text.as_str() == STARTS);
    Ok(())
}

/// Whether a program point looks at itself alone, a delay instruction of a call also at what the callee may do, and the
/// former alone are counted.
fn looks_at(alloc: Global, system: &SparcSystem) -> Result<bool, Fail> {
    let plain = Key::Node(onward(0x1000, 0));
    let delay = Key::Node(at(0x1004, Next::Into(0x1040), 0));
    let callee = Key::Summary { sub: 0x1040 };
    let alone = system.reads(alloc, plain)?;
    let both = system.reads(alloc, delay)?;
    Ok(
        alone.as_slice() == [plain].as_slice()
            && both.as_slice() == [delay, callee].as_slice()
            && system.counted(plain)
            && !system.counted(callee),
    )
}

#[test]
fn reads(rt: HostRuntime) -> Result<(), Fail> {
    let alloc = rt.alloc();
    let system = made(alloc, &[], "")?;
    assert!(rt; looks_at(alloc, &system)?);
    Ok(())
}

/// What the least facts of a system know at a program point, as text.
fn found(alloc: Global, system: &SparcSystem, p: Place) -> Result<String, Fail> {
    let mut core = Core::new(alloc, system, 100)?;
    drive(alloc, &mut core, system)?;
    let mut text = String::new(alloc);
    match core.facts().get(Key::Node(p)) {
        Some(fact) => push_fact(&mut text, fact)?,
        None => {}
    }
    Ok(text)
}

/// Both directions of a branch lead to its delay instruction and behind it: what is known there is what both leave.
#[test]
fn directions_of_one_key(rt: HostRuntime) -> Result<(), Fail> {
    let alloc = rt.alloc();
    let words: [u32; 4] = [0x80a22004, 0x02800002, 0x01000000, 0x81c3e008];
    let system = made(alloc, &words, "root 0x1000\nat 0x1000 %o0 4..5\n")?;
    let text = found(alloc, &system, onward(0x1008, 0))?;
    assert!(rt; text.as_str() == " 8=4|5 15=ret cmp 8 4");
    Ok(())
}

/// At 1000 a loop that counts in its own %l0, behind a SAVE, and calls the leaf at 1040 each time, which writes %l0.
const LOCALS: [u32; 18] = [
    0x9de3bfa0, 0xa0102005, 0x4000000e, 0x01000000, 0xa0a42001, 0x12bffffd, 0x01000000, 0x81c7e008,
    0x81e80000, 0x01000000, 0x01000000, 0x01000000, 0x01000000, 0x01000000, 0x01000000, 0x01000000,
    0x81c3e008, 0xa0102000,
];

/// An address behind the SAVE, and what is known there: of %l0, which is cell 40, never anything.
const FORGOTTEN: [(u32, &str); 3] = [
    (0x1004, " 15=ret"),
    (0x1008, " 15=ret"),
    (0x1010, " 15=ret 39=1008"),
];

/// Of a local register that a leaf without a SAVE writes its caller knows nothing behind the call, so nothing either at the
/// head of the loop in which the call is made, although it writes the register in front of the loop.
#[test]
fn locals_behind_a_leaf(rt: HostRuntime) -> Result<(), Fail> {
    let alloc = rt.alloc();
    let system = made(alloc, &LOCALS, "root 0x1000\n")?;
    for (pc, want) in &FORGOTTEN {
        let text = found(alloc, &system, onward(*pc, 1))?;
        assert!(rt; text.as_str() == *want, "{pc:x}");
    }
    Ok(())
}
