//! Programs with as many program points or contexts as there may be, and with one more.
use crate::calls::{Answer, BOUNDED, SOUND, UNBOUNDED, call, files_of};
use crate::images::{Made, executable};
use std::alloc::Global;
use std::test::Fail;

/// An instruction that does nothing.
const NOP: u32 = 0x0100_0000;

/// What `bound` says of code whose first function is the root.
fn answer(alloc: Global, code: Vec<u32>) -> Result<Answer, Fail> {
    let made = Made {
        code,
        functions: 1,
        stride: 1,
        symbols: 0,
        sections: 0,
    };
    let files = files_of(alloc, executable(alloc, &made)?)?;
    call(alloc, "bound i c a", files, SOUND)
}

/// So many words that stand still.
fn straight(alloc: Global, count: u32) -> Result<Vec<u32>, Fail> {
    let mut code = Vec::new(alloc);
    for _ in 0..count {
        code.push(NOP)?;
    }
    Ok(code)
}

/// Two functions that call each other, with so many program points in all, of which three are the first one's: each takes a
/// frame and calls the other, and the second has words between that stand still. A word that isn't reached parts them: a call
/// of what is right behind its delay instruction isn't followed.
fn cycle(alloc: Global, points: u32) -> Result<Vec<u32>, Fail> {
    let still = points.saturating_sub(6);
    let mut code = Vec::from_slice(alloc, &[0x9de3_bfa0, 0x4000_0003, NOP, NOP, 0x9de3_bfa0])?;
    for _ in 0..still {
        code.push(NOP)?;
    }
    let back = still.wrapping_add(5).wrapping_neg() & 0x3fff_ffff;
    code.extend_from_slice(&[0x4000_0000 | back, NOP])?;
    Ok(code)
}

/// A function that calls another one with a loaded word and with constants, so often in all. The other one's passes depend on
/// its argument: it adds 1024 to it until that is 4000 or more.
fn calls(alloc: Global, count: u32) -> Result<Vec<u32>, Fail> {
    let mut code = Vec::from_slice(alloc, &[0x9de3_bfa0])?;
    for number in 0..count {
        let ahead = count.saturating_sub(number).wrapping_mul(2).wrapping_add(2);
        let argument = if number == 0 {
            0xd006_2000
        } else {
            0x9010_2000 | (number & 0xfff)
        };
        code.extend_from_slice(&[0x4000_0000 | (ahead & 0x3fff_ffff), argument])?;
    }
    code.extend_from_slice(&[0x81c7_e008, 0x81e8_0000])?;
    code.extend_from_slice(&[0x9002_2400, 0x80a2_2fa0, 0x06bf_fffe, NOP, 0x81c3_e008, NOP])?;
    Ok(code)
}

/// How many lines of a text begin so.
fn lines_with(text: &[u8], begin: &[u8]) -> usize {
    let mut count = 0usize;
    for line in text.split(|byte| *byte == b'\n') {
        if line.starts_with(begin) {
            count = count.saturating_add(1);
        }
    }
    count
}

/// Whether such code is refused with this message, and nothing is written.
fn is_refused(alloc: Global, code: Vec<u32>, message: &str) -> Result<bool, Fail> {
    let said = answer(alloc, code)?;
    Ok(said.message.as_str() == message && said.text.is_empty())
}

/// Whether the report of such code is this one.
fn is_told(alloc: Global, code: Vec<u32>, message: &str, report: &str) -> Result<bool, Fail> {
    let said = answer(alloc, code)?;
    Ok(said.message.as_str() == message && said.text.as_slice() == report.as_bytes())
}

/// The report of the longest straight code.
const STRAIGHT: &str = "boundt report 1\n\
    root 02000000 f bounded 131071\n\
    context 02000000 f plain bounded 131071\n\
    end\n";

/// The report of two functions that call each other, with as many program points as there may be.
const CYCLE: &str = "boundt report 1\n\
    root 02000000 f unbounded\n\
    context 02000000 f args any unbounded\n\
    reason recursion 02000004\n\
    reason recursion 0207fffc\n\
    end\n";

/// Straight code of as many words as there may be: behind it is one more program point.
#[test]
fn longest_straight_code(rt: HostRuntime) -> Result<(), Fail> {
    let code = straight(rt.alloc(), 131_071)?;
    assert!(rt; is_told(rt.alloc(), code, BOUNDED, STRAIGHT)?);
    Ok(())
}

/// Straight code that is longer.
#[test]
fn longer_straight_code(rt: HostRuntime) -> Result<(), Fail> {
    let code = straight(rt.alloc(), 131_073)?;
    assert!(rt; is_refused(rt.alloc(), code, "boundt: 9 Nodes count 131073")?);
    Ok(())
}

/// As many program points as there may be.
#[test]
fn most_program_points(rt: HostRuntime) -> Result<(), Fail> {
    let code = cycle(rt.alloc(), 131_072)?;
    assert!(rt; is_told(rt.alloc(), code, UNBOUNDED, CYCLE)?);
    Ok(())
}

/// One program point more.
#[test]
fn too_many_program_points(rt: HostRuntime) -> Result<(), Fail> {
    let code = cycle(rt.alloc(), 131_073)?;
    assert!(rt; is_refused(rt.alloc(), code, "boundt: 9 Nodes count 131073")?);
    Ok(())
}

/// As many contexts as there may be: the caller's, and 4,095 of what it calls.
#[test]
fn most_contexts(rt: HostRuntime) -> Result<(), Fail> {
    let said = answer(rt.alloc(), calls(rt.alloc(), 4095)?)?;
    assert!(rt; said.message.as_str() == UNBOUNDED);
    assert!(rt; lines_with(&said.text, b"context ") == 4096);
    Ok(())
}

/// One context more.
#[test]
fn too_many_contexts(rt: HostRuntime) -> Result<(), Fail> {
    let code = calls(rt.alloc(), 4096)?;
    assert!(rt; is_refused(rt.alloc(), code, "boundt: 9 Contexts count 4097")?);
    Ok(())
}
