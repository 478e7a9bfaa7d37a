//! Executables that a reader might loop on or get lost in: branches to themselves, code at the end of memory, and a long
//! chain of functions.
use crate::calls::{BOUNDED, UNBOUNDED, files_of, says};
use crate::images::{LEAF, Made, bytes_of, executable};
use bt_base::hex8_text;
use std::alloc::Global;
use std::test::Fail;

/// Words of the leaf that are other ones, the message of `bound`, and its report.
#[rattlefmt::skip]
const CHANGED: [(&[(usize, u32)], &str, &str); 7] = [
    // Of another machine.
    (&[(4, 0x0002_0008)], "boundt: 3 Machine got 8", ""),
    // A section that goes on behind the file.
    (&[(39, 0x0000_0200)], "boundt: 3 SectionOutside n 1", ""),
    // Code at no multiple of four.
    (&[(37, 0x0200_0002)], "boundt: 3 Alignment n 1", ""),
    // Symbols whose names are symbols.
    (&[(50, 2)], "boundt: 3 SymbolTable n 2", ""),
    // Code in the last words of memory.
    (
        &[(20, 0xffff_fff8), (37, 0xffff_fff8)],
        BOUNDED,
        "boundt report 1\n\
        root fffffff8 f bounded 2\n\
        context fffffff8 f plain bounded 2\n\
        end\n",
    ),
    // A branch to itself.
    (
        &[(13, 0x1080_0000), (14, 0x0100_0000)],
        UNBOUNDED,
        "boundt report 1\n\
        root 02000000 f unbounded\n\
        context 02000000 f args any unbounded\n\
        loop 02000000/0 unbounded\n\
        reason loop 02000000/0\n\
        end\n",
    ),
    // A branch to itself without a delay instruction.
    (
        &[(13, 0x3080_0000), (14, 0x0100_0000)],
        UNBOUNDED,
        "boundt report 1\n\
        root 02000000 f unbounded\n\
        context 02000000 f args any unbounded\n\
        loop 02000000/0 unbounded\n\
        reason loop 02000000/0\n\
        end\n",
    ),
];

/// Whether the leaf with other words gets this message and this report.
fn is_told(
    alloc: Global,
    words: &[(usize, u32)],
    message: &str,
    report: &str,
) -> Result<bool, Fail> {
    let mut image = LEAF;
    for (place, word) in words {
        if let Some(there) = image.get_mut(*place) {
            *there = *word;
        }
    }
    let files = files_of(alloc, bytes_of(alloc, &image)?)?;
    says(alloc, "bound i c a", files, message, report.as_bytes())
}

/// A chain of functions: each but the last takes a frame, calls the next one and returns, and the last calls nothing.
fn chain(alloc: Global, count: u32) -> Result<Made, Fail> {
    let mut code = Vec::new(alloc);
    for _ in 1..count {
        code.extend_from_slice(&[
            0x9de3_bfa0,
            0x4000_0004,
            0x0100_0000,
            0x81c7_e008,
            0x81e8_0000,
        ])?;
    }
    code.extend_from_slice(&[0x9de3_bfa0, 0x81c7_e008, 0x81e8_0000])?;
    Ok(Made {
        code,
        functions: count,
        stride: 5,
        symbols: 0,
        sections: 0,
    })
}

/// Appends what the report says of a function of a chain with so many functions from it on: each takes one frame, of
/// which there are six.
fn put_context(alloc: Global, text: &mut String, entry: u32, count: u32) -> Result<(), Fail> {
    let at = hex8_text(alloc, entry)?;
    if count <= 6 {
        let bound = (5 * count).saturating_sub(2);
        let line = format!(in alloc; "context {at} f plain bounded {bound}\n")?;
        text.push_str(line.as_str())?;
        return Ok(());
    }
    let call = hex8_text(alloc, entry.wrapping_add(4))?;
    let callee = hex8_text(alloc, entry.wrapping_add(20))?;
    let line = format!(in alloc; "context {at} f args any unbounded\n")?;
    text.push_str(line.as_str())?;
    if count > 7 {
        let reason = format!(in alloc; "reason callee {call} {callee} f\n")?;
        text.push_str(reason.as_str())?;
    }
    let windows = format!(in alloc; "reason windows {count}\n")?;
    text.push_str(windows.as_str())?;
    Ok(())
}

/// The report of a chain of more than six functions.
fn chain_report(alloc: Global, count: u32) -> Result<String, Fail> {
    let mut text = String::from_str(alloc, "boundt report 1\nroot 02000000 f unbounded\n")?;
    let mut entry = 0x0200_0000u32;
    for before in 0..count {
        put_context(alloc, &mut text, entry, count - before)?;
        entry = entry.wrapping_add(20);
    }
    text.push_str("end\n")?;
    Ok(text)
}

/// Whether a chain of so many functions has its report.
fn is_chain(alloc: Global, count: u32) -> Result<bool, Fail> {
    let files = files_of(alloc, executable(alloc, &chain(alloc, count)?)?)?;
    let report = chain_report(alloc, count)?;
    says(alloc, "bound i c a", files, UNBOUNDED, report.as_bytes())
}

#[test]
fn changed_words(rt: HostRuntime) -> Result<(), Fail> {
    for (words, message, report) in &CHANGED {
        assert!(rt;
            is_told(rt.alloc(), words, message, report)?,
            "at {message}"
        );
    }
    Ok(())
}

#[test]
fn long_chains(rt: HostRuntime) -> Result<(), Fail> {
    for count in &[7u32, 8, 2000] {
        assert!(rt; is_chain(rt.alloc(), *count)?, "of {count}");
    }
    Ok(())
}
